// Calls on one port, worked out apart from this code by programs over the definitions. A `port` has the
// nanoseconds per byte, the share and the burst of its link, the quantum of both classes, for requests
// and for regular packets QUEUES/RING/QUEUE_BYTES/CLASS_BYTES, and for legacy packets RING/BYTES. Then
// come its calls, each with its answer: `queue TIME CLASS KEY LENGTH`, whose packets are numbered from
// 1, refused ones too, and `decide TIME`, whose starts tell when the link is free again.
pub const CASES: &str = "\
case nothing waits
port ns_per_byte=10 share=20 burst=4096 quantum=2048 request=64/32/65536/1048576 regular=64/32/65536/1048576 legacy=256/262144
decide 0 -> Idle
decide 5 -> Idle
case requests at the burst and at the share
port ns_per_byte=10 share=20 burst=4096 quantum=2048 request=64/32/65536/1048576 regular=64/32/65536/1048576 legacy=256/262144
queue 0 request 1 1000 -> Queued
queue 0 request 1 1000 -> Queued
queue 0 request 1 1000 -> Queued
queue 0 request 1 1000 -> Queued
queue 0 request 1 1000 -> Queued
queue 0 request 1 1000 -> Queued
queue 0 request 1 1000 -> Queued
queue 0 request 1 1000 -> Queued
queue 0 request 1 1000 -> Queued
queue 0 request 1 1000 -> Queued
queue 0 request 2 1000 -> Queued
decide 0 -> Start request #1 1000 free_at 10000
decide 10000 -> Start request #2 1000 free_at 20000
decide 20000 -> Start request #11 1000 free_at 30000
decide 30000 -> Start request #3 1000 free_at 40000
decide 40000 -> WaitUntil 180800
decide 180799 -> WaitUntil 180800
decide 180800 -> Start request #4 1000 free_at 190800
decide 190800 -> WaitUntil 380800
decide 380800 -> Start request #5 1000 free_at 390800
decide 390800 -> WaitUntil 580800
decide 580800 -> Start request #6 1000 free_at 590800
decide 590800 -> WaitUntil 780800
decide 780800 -> Start request #7 1000 free_at 790800
decide 790800 -> WaitUntil 980800
decide 980800 -> Start request #8 1000 free_at 990800
decide 990800 -> WaitUntil 1180800
decide 1180800 -> Start request #9 1000 free_at 1190800
decide 1190800 -> WaitUntil 1380800
decide 1380800 -> Start request #10 1000 free_at 1390800
decide 1390800 -> Idle
case ten regular packets of one key and one of another
port ns_per_byte=10 share=20 burst=4096 quantum=2048 request=64/32/65536/1048576 regular=64/32/65536/1048576 legacy=256/262144
queue 0 regular 1 1000 -> Queued
queue 0 regular 1 1000 -> Queued
queue 0 regular 1 1000 -> Queued
queue 0 regular 1 1000 -> Queued
queue 0 regular 1 1000 -> Queued
queue 0 regular 1 1000 -> Queued
queue 0 regular 1 1000 -> Queued
queue 0 regular 1 1000 -> Queued
queue 0 regular 1 1000 -> Queued
queue 0 regular 1 1000 -> Queued
queue 0 regular 2 1000 -> Queued
decide 0 -> Start regular #1 1000 free_at 10000
decide 10000 -> Start regular #2 1000 free_at 20000
decide 20000 -> Start regular #11 1000 free_at 30000
decide 30000 -> Start regular #3 1000 free_at 40000
decide 40000 -> Start regular #4 1000 free_at 50000
decide 50000 -> Start regular #5 1000 free_at 60000
decide 60000 -> Start regular #6 1000 free_at 70000
decide 70000 -> Start regular #7 1000 free_at 80000
decide 80000 -> Start regular #8 1000 free_at 90000
decide 90000 -> Start regular #9 1000 free_at 100000
decide 100000 -> Start regular #10 1000 free_at 110000
decide 110000 -> Idle
case a request waits nine tenths of its bound
port ns_per_byte=1 share=1000 burst=4096 quantum=2048 request=1/64/65536/131072 regular=1/64/65536/131072 legacy=9/20000
queue 0 request 1 2020 -> Queued
queue 0 request 1 2020 -> Queued
decide 0 -> Start request #1 2020 free_at 2020
decide 2020 -> Start request #2 2020 free_at 4040
queue 2021 request 1 2020 -> Queued
queue 2021 request 1 2020 -> Queued
queue 2021 request 1 2020 -> Queued
queue 2021 request 1 2020 -> Queued
queue 2021 request 1 2020 -> Queued
queue 2021 request 1 2020 -> Queued
queue 2021 request 1 2020 -> Queued
queue 2021 request 1 2020 -> Queued
queue 2021 request 1 2020 -> Queued
queue 2021 request 1 2020 -> Queued
queue 2021 request 1 2020 -> Queued
queue 2021 request 1 2020 -> Queued
queue 2021 request 1 2020 -> Queued
queue 2021 request 1 2020 -> Queued
queue 2021 request 1 2020 -> Queued
queue 2021 request 1 2020 -> Queued
queue 2021 request 1 2020 -> Queued
queue 2021 request 1 2020 -> Queued
queue 2021 request 1 2020 -> Queued
decide 4040 -> WaitUntil 1964000
decide 1964000 -> Start request #3 2020 free_at 1966020
decide 1966020 -> WaitUntil 3984000
decide 3984000 -> Start request #4 2020 free_at 3986020
decide 3986020 -> WaitUntil 6004000
decide 6004000 -> Start request #5 2020 free_at 6006020
decide 6006020 -> WaitUntil 8024000
decide 8024000 -> Start request #6 2020 free_at 8026020
decide 8026020 -> WaitUntil 10044000
decide 10044000 -> Start request #7 2020 free_at 10046020
decide 10046020 -> WaitUntil 12064000
decide 12064000 -> Start request #8 2020 free_at 12066020
decide 12066020 -> WaitUntil 14084000
decide 14084000 -> Start request #9 2020 free_at 14086020
decide 14086020 -> WaitUntil 16104000
decide 16104000 -> Start request #10 2020 free_at 16106020
decide 16106020 -> WaitUntil 18124000
decide 18124000 -> Start request #11 2020 free_at 18126020
decide 18126020 -> WaitUntil 20144000
decide 20144000 -> Start request #12 2020 free_at 20146020
decide 20146020 -> WaitUntil 22164000
decide 22164000 -> Start request #13 2020 free_at 22166020
decide 22166020 -> WaitUntil 24184000
decide 24184000 -> Start request #14 2020 free_at 24186020
decide 24186020 -> WaitUntil 26204000
decide 26204000 -> Start request #15 2020 free_at 26206020
decide 26206020 -> WaitUntil 28224000
decide 28224000 -> Start request #16 2020 free_at 28226020
decide 28226020 -> WaitUntil 30244000
decide 30244000 -> Start request #17 2020 free_at 30246020
decide 30246020 -> WaitUntil 32264000
decide 32264000 -> Start request #18 2020 free_at 32266020
decide 32266020 -> WaitUntil 34284000
decide 34284000 -> Start request #19 2020 free_at 34286020
decide 34286020 -> WaitUntil 36304000
decide 36304000 -> Start request #20 2020 free_at 36306020
decide 36306020 -> WaitUntil 38324000
decide 38324000 -> Start request #21 2020 free_at 38326020
decide 38326020 -> Idle
case a regular packet waits nine tenths of its bound
port ns_per_byte=1 share=1000 burst=4096 quantum=2048 request=1/64/65536/131072 regular=1/64/65536/131072 legacy=9/20000
queue 0 legacy 0 2020 -> Queued
decide 0 -> Start legacy #1 2020 free_at 2020
queue 1 request 1 2020 -> Queued
queue 1 request 1 2020 -> Queued
queue 1 regular 1 2020 -> Queued
queue 1 regular 1 2020 -> Queued
queue 1 regular 1 2020 -> Queued
queue 1 regular 1 2020 -> Queued
queue 1 regular 1 2020 -> Queued
queue 1 regular 1 2020 -> Queued
queue 1 regular 1 2020 -> Queued
queue 1 regular 1 2020 -> Queued
decide 2020 -> Start request #2 2020 free_at 4040
decide 4040 -> Start request #3 2020 free_at 6060
decide 6060 -> Start regular #4 2020 free_at 8080
decide 8080 -> Start regular #5 2020 free_at 10100
decide 10100 -> Start regular #6 2020 free_at 12120
decide 12120 -> Start regular #7 2020 free_at 14140
decide 14140 -> Start regular #8 2020 free_at 16160
decide 16160 -> Start regular #9 2020 free_at 18180
decide 18180 -> Start regular #10 2020 free_at 20200
decide 20200 -> Start regular #11 2020 free_at 22220
decide 22220 -> Idle
case a regular packet waits half its bound among three queues
port ns_per_byte=1 share=1000 burst=4096 quantum=2048 request=3/64/65536/131072 regular=3/64/65536/131072 legacy=9/20000
queue 0 legacy 0 1620 -> Queued
decide 0 -> Start legacy #1 1620 free_at 1620
queue 1 request 7 1620 -> Queued
queue 1 request 7 1620 -> Queued
queue 1 regular 1 1620 -> Queued
queue 1 regular 1 1620 -> Queued
queue 1 regular 2 1000 -> Queued
queue 1 regular 2 1000 -> Queued
queue 1 regular 2 1000 -> Queued
queue 1 regular 3 1620 -> Queued
decide 1620 -> Start request #2 1620 free_at 3240
decide 3240 -> Start request #3 1620 free_at 4860
decide 4860 -> Start regular #4 1620 free_at 6480
decide 6480 -> Start regular #6 1000 free_at 7480
decide 7480 -> Start regular #7 1000 free_at 8480
decide 8480 -> Start regular #9 1620 free_at 10100
decide 10100 -> Start regular #5 1620 free_at 11720
decide 11720 -> Start regular #8 1000 free_at 12720
decide 12720 -> Idle
case request then regular then legacy
port ns_per_byte=10 share=20 burst=4096 quantum=2048 request=64/32/65536/1048576 regular=64/32/65536/1048576 legacy=256/262144
queue 0 request 1 1000 -> Queued
queue 0 request 1 1000 -> Queued
queue 0 request 1 1000 -> Queued
queue 0 request 1 1000 -> Queued
queue 0 request 1 1000 -> Queued
queue 0 regular 9 1000 -> Queued
queue 0 legacy 0 1000 -> Queued
decide 0 -> Start request #1 1000 free_at 10000
decide 10000 -> Start request #2 1000 free_at 20000
decide 20000 -> Start request #3 1000 free_at 30000
decide 30000 -> Start request #4 1000 free_at 40000
decide 40000 -> Start regular #6 1000 free_at 50000
decide 50000 -> Start legacy #7 1000 free_at 60000
decide 60000 -> WaitUntil 180800
decide 180800 -> Start request #5 1000 free_at 190800
decide 190800 -> Idle
case a late request goes first
port ns_per_byte=10 share=20 burst=4096 quantum=2048 request=64/32/65536/1048576 regular=64/32/65536/1048576 legacy=256/262144
queue 0 legacy 0 100 -> Queued
queue 0 regular 5 100 -> Queued
queue 0 request 0 100 -> Queued
decide 0 -> Start request #3 100 free_at 1000
decide 1000 -> Start regular #2 100 free_at 2000
queue 1500 regular 5 100 -> Queued
decide 2000 -> Start regular #4 100 free_at 3000
decide 3000 -> Start legacy #1 100 free_at 4000
decide 4000 -> Idle
case a wait is ended by a regular packet
port ns_per_byte=10 share=20 burst=4096 quantum=2048 request=64/32/65536/1048576 regular=64/32/65536/1048576 legacy=256/262144
queue 0 request 3 1000 -> Queued
queue 0 request 3 1000 -> Queued
queue 0 request 3 1000 -> Queued
queue 0 request 3 1000 -> Queued
queue 0 request 3 1000 -> Queued
decide 0 -> Start request #1 1000 free_at 10000
decide 10000 -> Start request #2 1000 free_at 20000
decide 20000 -> Start request #3 1000 free_at 30000
decide 30000 -> Start request #4 1000 free_at 40000
decide 40000 -> WaitUntil 180800
queue 170000 regular 1 2000 -> Queued
decide 170000 -> Start regular #6 2000 free_at 190000
decide 190000 -> Start request #5 1000 free_at 200000
decide 200000 -> Idle
case the credit does not pass its cap
port ns_per_byte=10 share=20 burst=4096 quantum=2048 request=64/32/65536/1048576 regular=64/32/65536/1048576 legacy=256/262144
queue 1000000000 request 1 1024 -> Queued
queue 1000000000 request 1 1024 -> Queued
queue 1000000000 request 1 1024 -> Queued
queue 1000000000 request 1 1024 -> Queued
queue 1000000000 request 1 1024 -> Queued
queue 1000000000 request 1 1024 -> Queued
queue 1000000000 request 1 1024 -> Queued
queue 1000000000 request 1 1024 -> Queued
queue 1000000000 request 1 1024 -> Queued
decide 1000000000 -> Start request #1 1024 free_at 1000010240
decide 1000010240 -> Start request #2 1024 free_at 1000020480
decide 1000020480 -> Start request #3 1024 free_at 1000030720
decide 1000030720 -> Start request #4 1024 free_at 1000040960
decide 1000040960 -> WaitUntil 1000204800
decide 1000204800 -> Start request #5 1024 free_at 1000215040
decide 1000215040 -> WaitUntil 1000409600
case the exact credit
port ns_per_byte=1 share=2 burst=4096 quantum=2048 request=4/9/20000/20000 regular=4/9/20000/20000 legacy=9/20000
queue 0 request 1 2020 -> Queued
queue 0 request 1 2020 -> Queued
queue 0 request 1 2020 -> Queued
decide 0 -> Start request #1 2020 free_at 2020
decide 2020 -> Start request #2 2020 free_at 4040
decide 4040 -> Start request #3 2020 free_at 6060
queue 6060 request 1 2020 -> Queued
decide 6060 -> WaitUntil 7968
decide 7967 -> WaitUntil 7968
decide 7968 -> Start request #4 2020 free_at 9988
case the head of the requests waits
port ns_per_byte=10 share=100 burst=4096 quantum=2048 request=4/9/20000/20000 regular=4/9/20000/20000 legacy=9/20000
queue 0 request 1 2000 -> Queued
queue 0 request 1 2000 -> Queued
queue 0 request 1 2000 -> Queued
queue 0 request 2 33 -> Queued
decide 0 -> Start request #1 2000 free_at 20000
decide 20000 -> Start request #4 33 free_at 20330
decide 20330 -> Start request #2 2000 free_at 40330
queue 40330 request 3 33 -> Queued
decide 40330 -> WaitUntil 1937000
decide 1937000 -> Start request #3 2000 free_at 1957000
decide 1957000 -> WaitUntil 1970000
decide 1970000 -> Start request #5 33 free_at 1970330
case tight limits
port ns_per_byte=1 share=2 burst=4096 quantum=2048 request=2/2/2048/4068 regular=2/3/3000/4500 legacy=2/2500
queue 0 request 1 1000 -> Queued
queue 0 request 1 1049 -> QueueFull
queue 0 request 1 1048 -> Queued
queue 0 request 1 33 -> QueueFull
queue 0 request 0 2020 -> Queued
queue 0 request 2 33 -> NoQueue
queue 0 regular 1 1500 -> Queued
queue 0 regular 1 1501 -> QueueFull
queue 0 regular 1 1500 -> Queued
queue 0 regular 2 1501 -> QueueFull
queue 0 regular 2 1500 -> Queued
queue 0 regular 2 28 -> QueueFull
queue 0 regular 3 28 -> NoQueue
queue 0 legacy 0 1500 -> Queued
queue 0 legacy 0 1001 -> QueueFull
queue 0 legacy 0 1000 -> Queued
queue 0 legacy 0 20 -> QueueFull
decide 0 -> Start request #1 1000 free_at 1000
decide 1000 -> Start request #3 1048 free_at 2048
decide 2048 -> Start request #5 2020 free_at 4068
decide 4068 -> Start regular #7 1500 free_at 5568
decide 5568 -> Start regular #11 1500 free_at 7068
decide 7068 -> Start regular #9 1500 free_at 8568
decide 8568 -> Start legacy #14 1500 free_at 10068
decide 10068 -> Start legacy #16 1000 free_at 11068
decide 11068 -> Idle
case legacy by number and by bytes
port ns_per_byte=1000 share=20 burst=8192 quantum=2048 request=64/32/65536/1048576 regular=64/32/65536/1048576 legacy=3/2048
queue 0 legacy 1 20 -> Queued
queue 0 legacy 2 20 -> Queued
queue 0 legacy 3 20 -> Queued
queue 0 legacy 1 20 -> QueueFull
decide 0 -> Start legacy #1 20 free_at 20000
queue 1 legacy 1 2009 -> QueueFull
queue 1 legacy 1 2008 -> Queued
queue 1 legacy 1 20 -> QueueFull
decide 20000 -> Start legacy #2 20 free_at 40000
decide 40000 -> Start legacy #3 20 free_at 60000
decide 60000 -> Start legacy #6 2008 free_at 2068000
decide 2068000 -> Idle
case two regular queues
port ns_per_byte=10 share=20 burst=4096 quantum=2048 request=64/32/65536/1048576 regular=64/32/65536/1048576 legacy=256/262144
queue 0 regular 1 1000 -> Queued
queue 0 regular 1 1000 -> Queued
queue 0 regular 1 1000 -> Queued
queue 0 regular 1 1000 -> Queued
queue 0 regular 1 1000 -> Queued
queue 0 regular 1 1000 -> Queued
queue 0 regular 2 1000 -> Queued
queue 0 regular 2 2000 -> Queued
queue 0 regular 2 100 -> Queued
decide 0 -> Start regular #1 1000 free_at 10000
decide 10000 -> Start regular #2 1000 free_at 20000
decide 20000 -> Start regular #7 1000 free_at 30000
decide 30000 -> Start regular #3 1000 free_at 40000
decide 40000 -> Start regular #4 1000 free_at 50000
decide 50000 -> Start regular #8 2000 free_at 70000
decide 70000 -> Start regular #9 100 free_at 71000
decide 71000 -> Start regular #5 1000 free_at 81000
decide 81000 -> Start regular #6 1000 free_at 91000
decide 91000 -> Idle
case the same key in two classes
port ns_per_byte=1 share=2 burst=4096 quantum=2048 request=1/9/4000/4000 regular=1/9/4000/4000 legacy=9/4000
queue 0 request 7 100 -> Queued
queue 0 regular 7 100 -> Queued
queue 0 regular 8 100 -> NoQueue
queue 0 request 8 100 -> NoQueue
decide 0 -> Start request #1 100 free_at 100
queue 50 request 8 100 -> Queued
decide 100 -> Start request #5 100 free_at 200
queue 150 regular 8 100 -> NoQueue
decide 200 -> Start regular #2 100 free_at 300
queue 250 regular 8 100 -> Queued
decide 300 -> Start regular #7 100 free_at 400
decide 400 -> Idle
case late decisions
port ns_per_byte=10 share=20 burst=4096 quantum=2048 request=64/32/65536/1048576 regular=64/32/65536/1048576 legacy=256/262144
queue 0 request 1 500 -> Queued
queue 0 regular 1 500 -> Queued
decide 77 -> Start request #1 500 free_at 5077
queue 5078 legacy 0 500 -> Queued
decide 100000 -> Start regular #2 500 free_at 105000
decide 105000 -> Start legacy #3 500 free_at 110000
decide 110000 -> Idle
case great numbers
port ns_per_byte=1000000 share=1000 burst=1000000 quantum=1000000 request=64/32/65536/1048576 regular=64/32/65536/1048576 legacy=256/262144
queue 999999999999998 request 65535 2020 -> Queued
queue 999999999999998 request 65535 2020 -> Queued
queue 999999999999999 regular 4294967295 2020 -> Queued
decide 999999999999999 -> Start request #1 2020 free_at 1000002019999999
";
