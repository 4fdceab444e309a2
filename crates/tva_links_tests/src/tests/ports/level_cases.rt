// Calls on one port of a link with two levels, worked out apart from this code by a program over
// the definitions. A `port` has the number of queues behind a key as its last word; a request has
// its inner key as its last word, and all else is as in the cases of links with one level.
pub const LEVEL_CASES: &str = "\
case requests of two paths behind one tag
port ns_per_byte=10 share=20 burst=4096 quantum=2048 request=64/32/65536/1048576 regular=64/32/65536/1048576 legacy=256/262144 inner=4
queue 0 request 1 1000 1 -> Queued
queue 0 request 1 1000 1 -> Queued
queue 0 request 1 1000 1 -> Queued
queue 0 request 1 1000 2 -> Queued
decide 0 -> Start request #1 1000 free_at 10000
decide 10000 -> Start request #2 1000 free_at 20000
decide 20000 -> Start request #4 1000 free_at 30000
decide 30000 -> Start request #3 1000 free_at 40000
decide 40000 -> Idle
case a flood of one path takes from its neighbours their turns alone
port ns_per_byte=1 share=3 burst=8192 quantum=2048 request=64/32/65536/1048576 regular=64/32/65536/1048576 legacy=256/262144 inner=4
queue 0 request 1 1600 7 -> Queued
queue 0 request 1 1600 7 -> Queued
queue 0 request 1 1600 7 -> Queued
queue 0 request 1 1600 7 -> Queued
queue 0 request 1 1600 7 -> Queued
queue 0 request 1 800 8 -> Queued
queue 0 request 2 1600 7 -> Queued
queue 0 request 2 500 0 -> Queued
decide 0 -> Start request #1 1600 free_at 1600
decide 1600 -> Start request #7 1600 free_at 3200
decide 3200 -> Start request #6 800 free_at 4000
decide 4000 -> Start request #2 1600 free_at 5600
decide 5600 -> Start request #8 500 free_at 6100
decide 6100 -> Start request #3 1600 free_at 7700
decide 7700 -> Start request #4 1600 free_at 9300
decide 9300 -> Start request #5 1600 free_at 10900
decide 10900 -> Idle
case tight limits at both levels
port ns_per_byte=2 share=2 burst=4096 quantum=2048 request=2/3/3300/10000 regular=2/3/4000/10000 legacy=3/4000 inner=2
queue 0 request 1 1643 1 -> Queued
queue 0 request 1 1643 1 -> Queued
queue 0 request 1 1643 2 -> Queued
queue 0 request 2 1640 1 -> Queued
queue 0 request 1 43 3 -> NoQueue
queue 0 request 3 43 1 -> NoQueue
queue 0 request 1 97 1 -> QueueFull
queue 0 request 2 1640 2 -> Queued
queue 0 request 2 1600 2 -> Queued
queue 0 request 2 800 1 -> QueueFull
queue 0 request 1 50 2 -> Queued
decide 0 -> Start request #1 1643 free_at 3286
decide 3286 -> Start request #4 1640 free_at 6566
decide 6566 -> Start request #3 1643 free_at 9852
decide 9852 -> Start request #11 50 free_at 9952
decide 9952 -> WaitUntil 10080
decide 10080 -> Start request #8 1640 free_at 13360
decide 13360 -> WaitUntil 16652
decide 16652 -> Start request #2 1643 free_at 19938
decide 19938 -> WaitUntil 23052
decide 23052 -> Start request #9 1600 free_at 26252
decide 26252 -> Idle
case a request waits half its bound behind four queues
port ns_per_byte=1 share=1000 burst=4096 quantum=2048 request=2/64/65536/131072 regular=2/64/65536/131072 legacy=9/20000 inner=2
queue 0 request 2 1643 1 -> Queued
queue 0 request 2 1643 1 -> Queued
queue 0 request 1 1024 1 -> Queued
decide 0 -> Start request #1 1643 free_at 1643
queue 1 request 2 1024 1 -> Queued
queue 1 request 1 1024 1 -> Queued
queue 1 request 1 1643 1 -> Queued
queue 1 request 1 1643 2 -> Queued
queue 1 request 1 820 1 -> Queued
queue 1 request 1 1643 2 -> Queued
queue 1 request 2 1643 1 -> Queued
queue 1 request 2 1643 2 -> Queued
queue 1 request 2 1643 2 -> Queued
decide 1643 -> Start request #3 1024 free_at 2667
decide 2667 -> Start request #5 1024 free_at 3691
decide 3691 -> WaitUntil 1238000
decide 1238000 -> Start request #2 1643 free_at 1239643
decide 1239643 -> WaitUntil 2881000
decide 2881000 -> Start request #7 1643 free_at 2882643
decide 2882643 -> WaitUntil 4524000
decide 4524000 -> Start request #11 1643 free_at 4525643
decide 4525643 -> WaitUntil 5548000
decide 5548000 -> Start request #4 1024 free_at 5549024
decide 5549024 -> WaitUntil 7191000
decide 7191000 -> Start request #6 1643 free_at 7192643
decide 7192643 -> WaitUntil 8834000
decide 8834000 -> Start request #10 1643 free_at 8835643
decide 8835643 -> WaitUntil 10477000
decide 10477000 -> Start request #9 1643 free_at 10478643
decide 10478643 -> WaitUntil 11297000
decide 11297000 -> Start request #8 820 free_at 11297820
decide 11297820 -> WaitUntil 12940000
decide 12940000 -> Start request #12 1643 free_at 12941643
decide 12941643 -> Idle
case a mix on a link with two levels
port ns_per_byte=3 share=2 burst=5000 quantum=2048 request=3/4/5000/12000 regular=2/3/5000/9000 legacy=3/4000 inner=2
queue 9000 request 1 1643 2 -> Queued
decide 9000 -> Start request #1 1643 free_at 13929
queue 9000 request 3 100 3 -> Queued
queue 9000 request 3 100 1 -> Queued
queue 9000 request 1 100 1 -> Queued
decide 18000 -> Start request #2 100 free_at 18300
queue 18000 request 1 100 1 -> Queued
queue 18000 request 1 1643 1 -> Queued
queue 18000 request 1 700 1 -> Queued
queue 20000 request 1 700 1 -> QueueFull
decide 20500 -> Start request #3 100 free_at 20800
queue 29500 legacy 0 700 -> Queued
queue 29500 request 2 1500 1 -> Queued
queue 31500 request 2 43 0 -> Queued
decide 32000 -> Start request #4 100 free_at 32300
queue 32000 request 3 700 3 -> Queued
queue 32000 legacy 0 100 -> Queued
decide 41000 -> Start request #5 100 free_at 41300
queue 41000 request 2 1500 3 -> NoQueue
decide 41500 -> Start request #6 1643 free_at 46429
queue 42000 request 2 1643 1 -> Queued
queue 42000 request 2 100 3 -> NoQueue
queue 51000 request 2 700 3 -> NoQueue
queue 51000 request 1 700 0 -> Queued
decide 51000 -> Start request #10 1500 free_at 55500
queue 51500 request 1 43 3 -> NoQueue
decide 60500 -> Start request #11 43 free_at 60629
queue 60500 regular 2 700 -> Queued
decide 62500 -> Start request #12 700 free_at 64600
queue 62500 legacy 0 43 -> Queued
queue 64500 request 9 100 1 -> Queued
queue 66500 request 1 700 0 -> Queued
queue 68500 request 1 1643 3 -> NoQueue
decide 70500 -> Start request #7 700 free_at 72600
queue 71000 request 3 1500 1 -> NoQueue
queue 71000 regular 3 100 -> Queued
decide 73000 -> Start request #18 700 free_at 75100
queue 73000 request 9 1643 3 -> Queued
queue 73500 request 1 1643 1 -> Queued
queue 74000 legacy 0 700 -> QueueFull
queue 76000 legacy 0 700 -> QueueFull
decide 76500 -> Start request #23 700 free_at 78600
decide 85500 -> Start request #15 1643 free_at 90429
queue 87500 request 2 700 2 -> Queued
queue 88000 legacy 0 700 -> QueueFull
queue 88500 request 2 1500 1 -> Queued
decide 90500 -> Start request #22 100 free_at 90800
queue 91000 regular 1 100 -> NoQueue
decide 91500 -> Start request #27 1643 free_at 96429
queue 93500 request 1 1500 3 -> Queued
queue 102500 request 9 700 3 -> Queued
decide 103000 -> Start request #28 1643 free_at 107929
queue 103000 regular 3 1500 -> Queued
queue 103000 legacy 0 100 -> QueueFull
queue 103000 request 1 100 1 -> Queued
queue 103000 request 1 1500 3 -> Queued
queue 103000 request 9 1500 0 -> Queued
queue 112000 legacy 0 700 -> QueueFull
queue 112000 request 1 1500 3 -> Queued
decide 112500 -> Start request #31 700 free_at 114600
decide 121500 -> Start request #36 700 free_at 123600
queue 121500 regular 3 700 -> Queued
queue 122000 request 3 1500 3 -> NoQueue
queue 131000 request 9 100 2 -> Queued
queue 140000 request 9 100 0 -> Queued
decide 140500 -> Start request #35 1500 free_at 145000
queue 140500 request 9 1643 3 -> NoQueue
queue 140500 regular 2 1500 -> Queued
queue 142500 request 3 700 2 -> NoQueue
queue 144500 request 9 1643 1 -> NoQueue
queue 145000 request 2 43 1 -> Queued
decide 147000 -> Start request #39 100 free_at 147300
queue 147000 request 3 1643 1 -> NoQueue
queue 147500 request 1 1500 2 -> Queued
decide 156500 -> Start request #33 1500 free_at 161000
queue 156500 request 3 100 1 -> NoQueue
queue 156500 request 3 700 3 -> NoQueue
queue 158500 regular 1 43 -> NoQueue
queue 158500 regular 3 700 -> QueueFull
queue 159000 request 2 1500 1 -> Queued
decide 161000 -> Start request #52 43 free_at 161129
decide 161129 -> Start request #59 1500 free_at 165629
decide 165629 -> Start request #41 1500 free_at 170129
decide 170129 -> Start request #47 100 free_at 170429
decide 170429 -> Start request #46 100 free_at 170729
decide 170729 -> Start request #40 1500 free_at 175229
decide 175229 -> Start request #54 1500 free_at 179729
decide 179729 -> Start regular #20 700 free_at 181829
decide 181829 -> Start regular #26 100 free_at 182129
decide 182129 -> Start request #43 1500 free_at 186629
decide 186629 -> Start regular #37 1500 free_at 191129
decide 191129 -> Start regular #49 1500 free_at 195629
decide 195629 -> Start regular #44 700 free_at 197729
decide 197729 -> Start legacy #9 700 free_at 199829
decide 199829 -> Start legacy #13 100 free_at 200129
decide 200129 -> Start legacy #21 43 free_at 200258
decide 200258 -> Idle
";
