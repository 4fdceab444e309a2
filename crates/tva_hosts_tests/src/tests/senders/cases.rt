// Calls on senders, with answers from outside; those of version 2 are by the rules. `sender` begins one: the version
// of its shims, its margin, and when it asks again. `prepare TIME PEER BODY NONCE` gives the shape of a packet, with
// the nonce, units, seconds and capabilities of a list or a renewal. `granted PEER N T CAPABILITIES` tells whether
// the grant is taken, and `demoted` is a notice. Times are in nanoseconds.
pub const CASES: &str = "\
case request, then legacy until the retry
sender 1 1000000 2000000000
prepare 0 10.0.1.1 77 10 -> request
prepare 0 10.0.1.1 77 10 -> legacy
prepare 1999999999 10.0.1.1 0 10 -> legacy
prepare 2000000000 10.0.1.1 0 10 -> request
prepare 3999999999 10.0.1.1 0 10 -> legacy
prepare 4000000000 10.0.1.1 0 10 -> request
case the first list and then the nonce
sender 1 1000000 2000000000
prepare 0 10.0.1.1 77 1 -> request
granted 10.0.1.1 32 10 0500112233445566 -> true
prepare 4000000 10.0.1.1 12 2 -> list 2 32 10 0500112233445566
prepare 10000000 10.0.1.1 1000 3 -> nonce 2
prepare 10000000 10.0.1.1 1000 4 -> nonce 2
case the life less the margin
sender 1 1000000 2000000000
prepare 0 10.0.1.1 77 10 -> request
granted 10.0.1.1 32 10 0500112233445566 -> true
prepare 4000000 10.0.1.1 12 10 -> list 10 32 10 0500112233445566
prepare 18869140 10.0.1.1 0 10 -> nonce 10
prepare 27414063 10.0.1.1 0 10 -> list 10 32 10 0500112233445566
prepare 1000000000 10.0.1.1 0 10 -> list 10 32 10 0500112233445566
case a margin of 0
sender 1 0 1000000000
prepare 0 10.0.1.1 0 10 -> request
granted 10.0.1.1 32 10 0500112233445566 -> true
prepare 0 10.0.1.1 12 10 -> list 10 32 10 0500112233445566
prepare 15869140 10.0.1.1 12 10 -> nonce 10
prepare 28076172 10.0.1.1 12 10 -> nonce 10
prepare 40283205 10.0.1.1 12 10 -> list 10 32 10 0500112233445566
case a grant nobody asked for
sender 1 1000000 2000000000
granted 10.0.1.1 32 10 0500112233445566 -> false
demoted 10.0.1.1 -> -
prepare 0 10.0.2.2 0 10 -> request
granted 10.0.1.1 32 10 0500112233445566 -> false
granted 10.0.2.2 32 10 0500112233445566 -> true
granted 10.0.2.2 64 20 0699aabbccddeeff -> false
prepare 0 10.0.2.2 12 10 -> list 10 32 10 0500112233445566
prepare 0 10.0.1.1 12 10 -> request
case peers stand for themselves
sender 1 1000000 2000000000
prepare 0 10.0.1.1 0 10 -> request
prepare 0 10.0.2.2 0 10 -> request
granted 10.0.1.1 32 10 0500112233445566 -> true
prepare 1 10.0.2.2 0 10 -> legacy
granted 10.0.2.2 1 1 0699aabbccddeeff -> true
prepare 2 10.0.1.1 0 11 -> list 11 32 10 0500112233445566
prepare 2 10.0.2.2 0 12 -> legacy
demoted 10.0.1.1 -> -
demoted 10.0.1.1 -> -
prepare 3 10.0.2.2 0 10 -> legacy
prepare 3 10.0.1.1 0 10 -> legacy
case renewal when half the budget would be used
sender 1 0 1000000000
prepare 0 10.0.1.1 0 10 -> request
granted 10.0.1.1 2 60 0500112233445566 -> true
prepare 1000000000 10.0.1.1 984 10 -> list 10 2 60 0500112233445566
prepare 2000000000 10.0.1.1 100 10 -> renewal 10 2 60 0500112233445566
prepare 2000000000 10.0.1.1 100 10 -> nonce 10
granted 10.0.1.1 3 50 0699aabbccddeeff -> true
prepare 2000000000 10.0.1.1 100 12 -> list 12 3 50 0699aabbccddeeff
case exactly half the budget is not yet a renewal
sender 1 0 1000000000
prepare 0 10.0.1.1 0 10 -> request
granted 10.0.1.1 2 60 0500112233445566 -> true
prepare 1000000000 10.0.1.1 984 10 -> list 10 2 60 0500112233445566
prepare 1000000001 10.0.1.1 20 10 -> renewal 10 2 60 0500112233445566
case half the budget, one byte more at once
sender 1 0 1000000000
prepare 0 10.0.1.1 0 10 -> request
granted 10.0.1.1 2 60 0500112233445566 -> true
prepare 1000000000 10.0.1.1 985 10 -> renewal 10 2 60 0500112233445566
prepare 1000000000 10.0.1.1 984 10 -> nonce 10
prepare 1000000000 10.0.1.1 100 10 -> legacy
prepare 2000000000 10.0.1.1 0 10 -> request
case renewal when half of T is over
sender 1 0 1000000000
prepare 0 10.0.1.1 0 10 -> request
granted 10.0.1.1 32 10 0500112233445566 -> true
prepare 5000000000 10.0.1.1 0 10 -> list 10 32 10 0500112233445566
prepare 5000000001 10.0.1.1 0 10 -> renewal 10 32 10 0500112233445566
prepare 5000000002 10.0.1.1 0 10 -> nonce 10
prepare 6000000001 10.0.1.1 0 10 -> renewal 10 32 10 0500112233445566
case no renewal while an ask may not be made
sender 1 0 8000000000
prepare 0 10.0.1.1 0 10 -> request
granted 10.0.1.1 32 10 0500112233445566 -> true
prepare 7999999999 10.0.1.1 0 10 -> list 10 32 10 0500112233445566
prepare 7999999999 10.0.1.1 0 10 -> nonce 10
prepare 8000000000 10.0.1.1 0 10 -> renewal 10 32 10 0500112233445566
prepare 9000000000 10.0.1.1 0 10 -> list 10 32 10 0500112233445566
prepare 9000000001 10.0.1.1 0 10 -> legacy
case the last second of T
sender 1 1000000 2000000000
prepare 0 10.0.1.1 0 10 -> request
granted 10.0.1.1 32 3 0500112233445566 -> true
prepare 1 10.0.1.1 0 10 -> list 10 32 3 0500112233445566
prepare 1999000000 10.0.1.1 0 10 -> list 10 32 3 0500112233445566
prepare 1999000001 10.0.1.1 0 10 -> legacy
prepare 2000000000 10.0.1.1 0 10 -> request
granted 10.0.1.1 32 1 0699aabbccddeeff -> true
prepare 2000000000 10.0.1.1 0 10 -> legacy
case T too short to be used at all
sender 1 1000000 2000000000
prepare 0 10.0.1.1 0 10 -> request
granted 10.0.1.1 32 1 0500112233445566 -> true
prepare 0 10.0.1.1 0 10 -> legacy
prepare 2000000000 10.0.1.1 0 10 -> request
granted 10.0.1.1 32 0 0500112233445566 -> true
prepare 2000000000 10.0.1.1 0 10 -> legacy
case N of 0 and the end of a budget
sender 1 1000000 2000000000
prepare 0 10.0.1.1 0 10 -> request
granted 10.0.1.1 0 10 0500112233445566 -> true
prepare 0 10.0.1.1 0 10 -> legacy
prepare 2000000000 10.0.1.1 0 10 -> request
granted 10.0.1.1 1 10 0500112233445566 -> true
prepare 2000000000 10.0.1.1 984 10 -> list 10 1 10 0500112233445566
prepare 2000000000 10.0.1.1 0 10 -> legacy
prepare 4000000000 10.0.1.1 0 10 -> request
case the exact end of a budget
sender 1 1000000 2000000000
prepare 0 10.0.1.1 0 10 -> request
granted 10.0.1.1 1 10 0500112233445566 -> true
prepare 0 10.0.1.1 950 10 -> list 10 1 10 0500112233445566
prepare 1 10.0.1.1 7 10 -> legacy
prepare 1 10.0.1.1 6 10 -> nonce 10
prepare 1 10.0.1.1 0 10 -> legacy
case version 1 takes no greater rights
sender 1 1000000 2000000000
prepare 0 10.0.1.1 0 10 -> request
granted 10.0.1.1 1024 63 0500112233445566 -> false
granted 10.0.1.1 1023 64 0500112233445566 -> false
prepare 0 10.0.1.1 0 10 -> legacy
granted 10.0.1.1 1023 63 0500112233445566 -> true
prepare 0 10.0.1.1 0 10 -> list 10 1023 63 0500112233445566
case one notice, then a second
sender 1 1000000 2000000000
prepare 0 10.0.1.1 0 10 -> request
granted 10.0.1.1 32 10 0500112233445566 -> true
prepare 1000000 10.0.1.1 1000 10 -> list 10 32 10 0500112233445566
prepare 2000000 10.0.1.1 0 10 -> nonce 10
demoted 10.0.1.1 -> -
prepare 3000000 10.0.1.1 0 10 -> list 10 32 10 0500112233445566
prepare 3000000 10.0.1.1 0 10 -> nonce 10
demoted 10.0.1.1 -> -
prepare 4000000 10.0.1.1 0 10 -> legacy
demoted 10.0.1.1 -> -
prepare 2000000000 10.0.1.1 0 10 -> request
granted 10.0.1.1 32 10 0699aabbccddeeff -> true
demoted 10.0.1.1 -> -
prepare 2000000000 10.0.1.1 0 10 -> list 10 32 10 0699aabbccddeeff
prepare 2000000000 10.0.1.1 0 10 -> nonce 10
case notices before a grant count for nothing
sender 1 1000000 2000000000
demoted 10.0.1.1 -> -
prepare 0 10.0.1.1 0 10 -> request
demoted 10.0.1.1 -> -
demoted 10.0.1.1 -> -
granted 10.0.1.1 32 10 0500112233445566 -> true
prepare 1 10.0.1.1 0 10 -> list 10 32 10 0500112233445566
prepare 1 10.0.1.1 0 10 -> nonce 10
demoted 10.0.1.1 -> -
prepare 1 10.0.1.1 0 10 -> list 10 32 10 0500112233445566
case a grant that comes after the grant was given up
sender 1 0 1000000000
prepare 0 10.0.1.1 0 10 -> request
granted 10.0.1.1 32 10 0500112233445566 -> true
prepare 6000000000 10.0.1.1 0 10 -> renewal 10 32 10 0500112233445566
demoted 10.0.1.1 -> -
demoted 10.0.1.1 -> -
prepare 6000000000 10.0.1.1 0 10 -> legacy
granted 10.0.1.1 32 10 0699aabbccddeeff -> true
prepare 6000000000 10.0.1.1 0 11 -> list 11 32 10 0699aabbccddeeff
prepare 14000000000 10.0.1.1 0 10 -> renewal 11 32 10 0699aabbccddeeff
prepare 15000000000 10.0.1.1 0 10 -> renewal 11 32 10 0699aabbccddeeff
prepare 15000000001 10.0.1.1 0 10 -> legacy
prepare 16000000000 10.0.1.1 0 10 -> request
case many capabilities and none
sender 1 1000000 2000000000
prepare 0 10.0.1.1 0 10 -> request
granted 10.0.1.1 32 10 - -> true
prepare 0 10.0.1.1 0 10 -> list 10 32 10 -
prepare 2000000000 10.0.1.1 0 10 -> list 10 32 10 -
prepare 6000000000 10.0.1.1 0 10 -> renewal 10 32 10 -
granted 10.0.1.1 1 63 0500112233445566,0699aabbccddeeff,07ffffffffffff00 -> true
prepare 6000000000 10.0.1.1 968 10 -> list 10 1 63 0500112233445566,0699aabbccddeeff,07ffffffffffff00
prepare 6000000000 10.0.1.1 0 10 -> legacy
case sixteen capabilities
sender 1 1000000 2000000000
prepare 0 10.0.1.1 0 10 -> request
granted 10.0.1.1 1 63 0500000000000000,0500000000000001,0500000000000002,0500000000000003,0500000000000004,0500000000000005,0500000000000006,0500000000000007,0500000000000008,0500000000000009,050000000000000a,050000000000000b,050000000000000c,050000000000000d,050000000000000e,050000000000000f -> true
prepare 0 10.0.1.1 865 10 -> legacy
prepare 0 10.0.1.1 864 10 -> list 10 1 63 0500000000000000,0500000000000001,0500000000000002,0500000000000003,0500000000000004,0500000000000005,0500000000000006,0500000000000007,0500000000000008,0500000000000009,050000000000000a,050000000000000b,050000000000000c,050000000000000d,050000000000000e,050000000000000f
prepare 0 10.0.1.1 0 10 -> legacy
case the asked time is that of the last ask
sender 1 1000000 2000000000
prepare 0 10.0.1.1 0 10 -> request
prepare 2000000000 10.0.1.1 0 10 -> request
granted 10.0.1.1 32 4 0500112233445566 -> true
prepare 4999000000 10.0.1.1 0 10 -> renewal 10 32 4 0500112233445566
prepare 4999000001 10.0.1.1 0 10 -> legacy
case legacy packets do not change the nonce of a grant
sender 1 1000000 2000000000
prepare 0 10.0.1.1 0 281474976710653 -> request
granted 10.0.1.1 1 10 0500112233445566 -> true
prepare 0 10.0.1.1 1500 281474976710654 -> legacy
prepare 0 10.0.1.1 0 281474976710655 -> list 281474976710655 1 10 0500112233445566
prepare 0 10.0.1.1 0 0 -> nonce 281474976710655
case lists are two bytes longer
sender 2 1000000 2000000000
prepare 0 10.0.1.1 0 10 -> request
granted 10.0.1.1 1 10 0500112233445566 -> true
prepare 0 10.0.1.1 983 10 -> legacy
prepare 0 10.0.1.1 982 10 -> list 10 1 10 0500112233445566
prepare 0 10.0.1.1 0 10 -> legacy
case greater rights are taken
sender 2 1000000 2000000000
prepare 0 10.0.1.1 0 10 -> request
granted 10.0.1.1 1024 127 0500112233445566 -> true
prepare 4000000 10.0.1.1 0 10 -> list 10 1024 127 0500112233445566
prepare 5000000 10.0.1.1 0 11 -> nonce 10
prepare 63000000000 10.0.1.1 0 11 -> list 10 1024 127 0500112233445566
prepare 63500000001 10.0.1.1 0 11 -> renewal 10 1024 127 0500112233445566
granted 10.0.1.1 1048575 1 0699aabbccddeeff -> true";
