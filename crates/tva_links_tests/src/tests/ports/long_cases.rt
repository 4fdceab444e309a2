// Calls on one port, worked out and written as those of `cases.rt`, in longer cases.
pub const LONG_CASES: &str = "\
case a long mix
port ns_per_byte=10 share=5 burst=4096 quantum=2048 request=3/4/4000/8000 regular=3/4/5000/9000 legacy=4/5000
queue 500 request 3 2000 -> Queued
decide 500 -> Start request #1 2000 free_at 20500
queue 20500 request 1 2000 -> Queued
decide 20500 -> Start request #2 2000 free_at 40500
queue 23500 request 2 2000 -> Queued
queue 43500 legacy 0 2000 -> Queued
decide 43500 -> Start legacy #4 2000 free_at 63500
queue 44000 request 2 2000 -> Queued
queue 44000 request 2 100 -> QueueFull
queue 47000 request 3 2000 -> Queued
queue 67000 legacy 0 2000 -> Queued
decide 67000 -> Start legacy #8 2000 free_at 87000
queue 75000 legacy 0 700 -> Queued
queue 78000 request 1 700 -> Queued
queue 86000 request 3 2000 -> QueueFull
queue 89000 legacy 0 2000 -> Queued
decide 89000 -> Start legacy #9 700 free_at 96000
queue 109000 regular 4 700 -> Queued
decide 109000 -> Start request #3 2000 free_at 129000
queue 112000 request 3 700 -> Queued
queue 115000 request 2 1200 -> Queued
queue 118000 request 1 2000 -> QueueFull
queue 126000 request 3 100 -> Queued
queue 134000 request 1 1200 -> Queued
decide 134000 -> Start regular #13 700 free_at 141000
queue 142000 legacy 0 100 -> Queued
decide 142000 -> Start legacy #12 2000 free_at 162000
queue 142000 request 4 1200 -> NoQueue
queue 162000 regular 2 100 -> Queued
decide 162000 -> Start regular #21 100 free_at 163000
queue 165000 request 1 100 -> Queued
decide 165000 -> Start legacy #19 100 free_at 166000
queue 185000 request 2 2000 -> QueueFull
decide 185000 -> WaitUntil 195700
queue 188000 regular 2 100 -> Queued
decide 188000 -> Start regular #24 100 free_at 189000
queue 191000 regular 3 700 -> Queued
decide 191000 -> Start regular #25 700 free_at 198000
queue 199000 legacy 0 2000 -> Queued
decide 199000 -> Start request #7 2000 free_at 219000
queue 219000 legacy 0 100 -> Queued
decide 219000 -> Start legacy #26 2000 free_at 239000
queue 239000 regular 4 700 -> Queued
decide 239000 -> Start request #10 700 free_at 246000
queue 242000 legacy 0 1200 -> Queued
queue 262000 regular 3 100 -> Queued
decide 262000 -> Start regular #28 700 free_at 269000
queue 270000 regular 1 2000 -> Queued
decide 270000 -> Start regular #30 100 free_at 271000
queue 290000 request 1 1200 -> Queued
decide 290000 -> Start regular #31 2000 free_at 310000
queue 298000 regular 3 1200 -> Queued
queue 306000 request 1 100 -> Queued
queue 309000 regular 4 1200 -> Queued
queue 329000 regular 2 1200 -> Queued
decide 329000 -> Start request #18 1200 free_at 341000
queue 329500 regular 3 1200 -> Queued
queue 332500 legacy 0 100 -> Queued
queue 332500 request 3 700 -> Queued
queue 335500 request 3 700 -> Queued
queue 343500 request 1 1200 -> Queued
decide 343500 -> Start request #22 100 free_at 344500
queue 346500 request 4 700 -> NoQueue
decide 346500 -> Start regular #33 1200 free_at 358500
queue 346500 regular 2 2000 -> Queued
queue 349500 request 1 100 -> Queued
queue 369500 request 3 700 -> QueueFull
decide 369500 -> Start regular #35 1200 free_at 381500
queue 372500 regular 1 1200 -> Queued
queue 392500 request 4 1200 -> NoQueue
decide 392500 -> Start regular #36 1200 free_at 404500
queue 412500 regular 4 1200 -> NoQueue
decide 412500 -> Start request #5 2000 free_at 432500
queue 420500 regular 4 2000 -> NoQueue
queue 420500 legacy 0 700 -> Queued
queue 421000 request 4 2000 -> NoQueue
queue 441000 request 1 2000 -> QueueFull
decide 441000 -> Start request #14 700 free_at 448000
queue 461000 regular 3 700 -> Queued
decide 461000 -> Start request #17 100 free_at 462000
queue 461000 regular 1 700 -> Queued
queue 461000 request 2 2000 -> Queued
queue 481000 request 1 2000 -> QueueFull
decide 481000 -> Start request #39 700 free_at 488000
queue 481000 request 3 700 -> Queued
queue 481000 legacy 0 100 -> QueueFull
queue 501000 request 3 700 -> Queued
decide 501000 -> Start regular #37 1200 free_at 513000
queue 504000 legacy 0 100 -> QueueFull
decide 513000 -> Start regular #53 700 free_at 520000
decide 520000 -> Start regular #46 1200 free_at 532000
decide 532000 -> Start request #32 1200 free_at 544000
decide 544000 -> Start request #34 100 free_at 545000
decide 545000 -> Start regular #54 700 free_at 552000
decide 552000 -> Start regular #43 2000 free_at 572000
decide 572000 -> Start legacy #27 100 free_at 573000
decide 573000 -> Start legacy #29 1200 free_at 585000
decide 585000 -> Start legacy #38 100 free_at 586000
decide 586000 -> Start legacy #50 700 free_at 593000
decide 593000 -> WaitUntil 595700
decide 595700 -> Start request #15 1200 free_at 607700
case a slow share and little room
port ns_per_byte=3 share=50 burst=4096 quantum=2048 request=2/3/2500/4000 regular=2/3/3000/4500 legacy=3/2048
queue 3000 legacy 0 1000 -> Queued
decide 3000 -> Start legacy #1 1000 free_at 6000
queue 3000 request 0 500 -> Queued
queue 3000 legacy 0 33 -> Queued
queue 3000 request 3 20 -> Queued
queue 3500 request 3 20 -> Queued
queue 3500 legacy 0 1950 -> Queued
queue 3500 regular 3 20 -> Queued
queue 4000 request 1 500 -> NoQueue
queue 13000 request 0 1950 -> Queued
decide 13000 -> Start request #2 500 free_at 14500
decide 14500 -> Start request #4 20 free_at 14560
decide 14560 -> Start request #5 20 free_at 14620
decide 14620 -> Start request #9 1950 free_at 20470
queue 16000 regular 1 20 -> Queued
queue 16500 request 0 1950 -> Queued
queue 16500 regular 3 1950 -> Queued
queue 25500 legacy 0 1000 -> QueueFull
decide 25500 -> Start regular #7 20 free_at 25560
decide 25560 -> Start regular #12 1950 free_at 31410
decide 31410 -> Start regular #10 20 free_at 31470
decide 31470 -> Start legacy #3 33 free_at 31569
decide 31569 -> Start legacy #6 1950 free_at 37419
queue 34500 request 1 33 -> Queued
queue 35000 request 2 1950 -> NoQueue
queue 44000 legacy 0 1000 -> Queued
decide 44000 -> Start legacy #16 1000 free_at 47000
decide 47000 -> WaitUntil 64600
queue 47000 regular 0 20 -> Queued
decide 47000 -> Start regular #17 20 free_at 47060
decide 47060 -> WaitUntil 64600
queue 56000 request 2 33 -> NoQueue
decide 56000 -> WaitUntil 64600
decide 64600 -> Start request #11 1950 free_at 70450
queue 65000 request 0 1950 -> Queued
queue 68000 request 2 1950 -> NoQueue
queue 77000 regular 3 20 -> Queued
decide 77000 -> Start request #14 33 free_at 77099
queue 77000 legacy 0 1000 -> Queued
queue 77000 request 2 1950 -> Queued
queue 86000 request 3 500 -> NoQueue
decide 86000 -> Start regular #21 20 free_at 86060
queue 86000 legacy 0 500 -> Queued
queue 86500 regular 3 20 -> Queued
decide 86500 -> Start regular #26 20 free_at 86560
decide 86560 -> Start legacy #22 1000 free_at 89560
queue 87000 legacy 0 33 -> Queued
queue 87500 request 3 20 -> NoQueue
queue 88000 request 2 33 -> Queued
queue 97000 legacy 0 500 -> Queued
decide 97000 -> Start legacy #25 500 free_at 98500
decide 98500 -> Start legacy #27 33 free_at 98599
decide 98599 -> Start legacy #30 500 free_at 100099
decide 100099 -> WaitUntil 362050
queue 106000 legacy 0 1000 -> Queued
decide 106000 -> Start legacy #31 1000 free_at 109000
queue 106500 request 1 33 -> NoQueue
queue 107000 regular 0 1000 -> Queued
queue 107500 request 0 33 -> Queued
queue 116500 regular 2 33 -> Queued
decide 116500 -> Start regular #33 1000 free_at 119500
queue 116500 regular 3 1000 -> Queued
queue 125500 request 3 1000 -> NoQueue
decide 125500 -> Start regular #35 33 free_at 125599
queue 125500 request 1 1000 -> NoQueue
decide 125599 -> Start regular #36 1000 free_at 128599
decide 128599 -> WaitUntil 362050
decide 362050 -> Start request #19 1950 free_at 367900
decide 367900 -> Start request #34 33 free_at 367999
decide 367999 -> WaitUntil 659500
decide 659500 -> Start request #23 1950 free_at 665350
decide 665350 -> Start request #29 33 free_at 665449
decide 665449 -> Idle
case a fast share and a long quantum
port ns_per_byte=7 share=2 burst=4096 quantum=6000 request=3/4/4000/9000 regular=3/4/5000/9000 legacy=2/4000
queue 20000 legacy 0 1500 -> Queued
decide 20000 -> Start legacy #1 1500 free_at 30500
decide 30500 -> Idle
queue 40000 regular 9 100 -> Queued
decide 40000 -> Start regular #2 100 free_at 40700
decide 40700 -> Idle
queue 41000 regular 5 2020 -> Queued
decide 41000 -> Start regular #3 2020 free_at 55140
queue 42000 request 5 100 -> Queued
queue 42000 regular 9 20 -> Queued
queue 62000 legacy 0 2020 -> Queued
decide 62000 -> Start request #4 100 free_at 62700
decide 62700 -> Start regular #5 20 free_at 62840
decide 62840 -> Start legacy #6 2020 free_at 76980
queue 63000 regular 9 20 -> Queued
queue 63000 request 1 2020 -> Queued
queue 63000 regular 5 1500 -> Queued
queue 64000 regular 9 777 -> Queued
queue 84000 request 1 1500 -> Queued
decide 84000 -> Start request #8 2020 free_at 98140
queue 92000 regular 9 20 -> Queued
queue 100000 request 1 2020 -> Queued
decide 100000 -> Start request #11 1500 free_at 110500
queue 108000 request 9 20 -> Queued
queue 128000 request 5 1500 -> Queued
decide 128000 -> Start request #13 2020 free_at 142140
queue 128000 legacy 0 20 -> Queued
queue 129000 request 1 1500 -> Queued
queue 149000 legacy 0 1500 -> Queued
decide 149000 -> Start request #14 20 free_at 149140
decide 149140 -> Start request #15 1500 free_at 159640
decide 159640 -> Start request #17 1500 free_at 170140
queue 169000 request 9 100 -> Queued
queue 177000 request 5 777 -> Queued
decide 177000 -> Start request #19 100 free_at 177700
queue 177000 legacy 0 20 -> QueueFull
decide 177700 -> Start request #20 777 free_at 183139
queue 178000 request 1 20 -> Queued
queue 178000 regular 5 100 -> Queued
queue 179000 regular 1 100 -> Queued
queue 199000 regular 1 1500 -> Queued
decide 199000 -> Start request #22 20 free_at 199140
decide 199140 -> Start regular #7 20 free_at 199280
decide 199280 -> Start regular #10 777 free_at 204719
decide 204719 -> Start regular #12 20 free_at 204859
decide 204859 -> Start regular #9 1500 free_at 215359
decide 215359 -> Start regular #23 100 free_at 216059
decide 216059 -> Start regular #24 100 free_at 216759
decide 216759 -> Start regular #25 1500 free_at 227259
queue 219000 legacy 0 20 -> QueueFull
queue 227000 legacy 0 2020 -> QueueFull
decide 227259 -> Start legacy #16 20 free_at 227399
decide 227399 -> Start legacy #18 1500 free_at 237899
queue 235000 legacy 0 20 -> Queued
queue 236000 request 9 2020 -> Queued
queue 236000 request 1 100 -> Queued
queue 256000 request 9 777 -> Queued
decide 256000 -> Start request #29 2020 free_at 270140
queue 264000 regular 1 20 -> Queued
queue 265000 regular 1 20 -> Queued
queue 273000 regular 5 100 -> Queued
decide 273000 -> Start request #31 777 free_at 278439
decide 278439 -> Start request #30 100 free_at 279139
decide 279139 -> Start regular #32 20 free_at 279279
decide 279279 -> Start regular #33 20 free_at 279419
decide 279419 -> Start regular #34 100 free_at 280119
decide 280119 -> Start legacy #28 20 free_at 280259
decide 280259 -> Idle
";
