// Calls on one cache, worked out apart from this code by two programs over the definitions: the slots and
// the clock's offset of each case, then each call with its verdict and, after the bar, how many flows
// live then. A call is `list TIME SOURCE DESTINATION N T SECOND NONCE LENGTH` or
// `nonce TIME SOURCE DESTINATION NONCE LENGTH`, and an authorised one tells the grant's N, T and second.
pub(crate) const CASES: &str = "\
case a life ends exactly
cache 8 0
list 5000000000 10.0.0.1 10.0.1.1 1 2 5 10 512 -> Authorised 1 2 5 | 1
list 6000000000 10.0.0.1 10.0.1.1 1 2 5 10 512 -> Authorised 1 2 5 | 1
list 6100000000 10.0.0.1 10.0.1.1 1 2 5 10 512 -> Authorised 1 2 5 | 1
list 6200000000 10.0.0.1 10.0.1.1 1 2 5 10 20 -> OverN | 1
list 8000000000 10.0.0.1 10.0.1.1 1 2 5 10 20 -> Authorised 1 2 5 | 1
case one nanosecond before a life ends
cache 8 0
list 5000000000 10.0.0.1 10.0.1.1 1 2 5 10 512 -> Authorised 1 2 5 | 1
list 5999999999 10.0.0.1 10.0.1.1 1 2 5 10 512 -> Authorised 1 2 5 | 1
list 6100000000 10.0.0.1 10.0.1.1 1 2 5 10 20 -> OverN | 1
list 6999999999 10.0.0.1 10.0.1.1 1 2 5 10 20 -> OverN | 1
list 7000000000 10.0.0.1 10.0.1.1 1 2 5 10 1024 -> Authorised 1 2 5 | 1
case just below twice the budget
cache 8 0
list 5000000000 10.0.0.1 10.0.1.1 1 2 5 10 1023 -> Authorised 1 2 5 | 1
list 6998046874 10.0.0.1 10.0.1.1 1 2 5 10 1024 -> OverN | 1
list 6998046874 10.0.0.1 10.0.1.1 1 2 5 10 20 -> OverN | 1
list 6998046875 10.0.0.1 10.0.1.1 1 2 5 10 1024 -> Authorised 1 2 5 | 1
list 6998046875 10.0.0.1 10.0.1.1 1 2 5 10 20 -> OverN | 1
case credit is rounded up
cache 8 0
list 5000000000 10.0.0.1 10.0.1.1 3 1 5 10 40 -> Authorised 3 1 5 | 1
nonce 5013020833 10.0.0.1 10.0.1.1 10 28 -> Authorised 3 1 5 | 1
nonce 5022135417 10.0.0.1 10.0.1.1 10 28 -> Authorised 3 1 5 | 1
nonce 5031250001 10.0.0.1 10.0.1.1 10 28 -> Authorised 3 1 5 | 1
nonce 5040364586 10.0.0.1 10.0.1.1 10 28 -> UnknownNonce | 0
case the budget is used to its last byte
cache 8 0
list 5000000000 10.0.0.1 10.0.1.1 2 10 5 10 2000 -> Authorised 2 10 5 | 1
list 5000000000 10.0.0.1 10.0.1.1 2 10 5 10 49 -> OverN | 1
list 5000000000 10.0.0.1 10.0.1.1 2 10 5 10 48 -> Authorised 2 10 5 | 1
nonce 5000000000 10.0.0.1 10.0.1.1 10 20 -> OverN | 1
list 5000000000 10.0.0.1 10.0.1.1 2 10 5 10 20 -> OverN | 1
case thirty-three packets of a unit
cache 8 0
list 5000000000 10.0.0.1 10.0.1.1 32 10 5 10 1024 -> Authorised 32 10 5 | 1
list 5000000000 10.0.0.1 10.0.1.1 32 10 5 10 1024 -> Authorised 32 10 5 | 1
list 5000000000 10.0.0.1 10.0.1.1 32 10 5 10 1024 -> Authorised 32 10 5 | 1
list 5000000000 10.0.0.1 10.0.1.1 32 10 5 10 1024 -> Authorised 32 10 5 | 1
list 5000000000 10.0.0.1 10.0.1.1 32 10 5 10 1024 -> Authorised 32 10 5 | 1
list 5000000000 10.0.0.1 10.0.1.1 32 10 5 10 1024 -> Authorised 32 10 5 | 1
list 5000000000 10.0.0.1 10.0.1.1 32 10 5 10 1024 -> Authorised 32 10 5 | 1
list 5000000000 10.0.0.1 10.0.1.1 32 10 5 10 1024 -> Authorised 32 10 5 | 1
list 5000000000 10.0.0.1 10.0.1.1 32 10 5 10 1024 -> Authorised 32 10 5 | 1
list 5000000000 10.0.0.1 10.0.1.1 32 10 5 10 1024 -> Authorised 32 10 5 | 1
list 5000000000 10.0.0.1 10.0.1.1 32 10 5 10 1024 -> Authorised 32 10 5 | 1
list 5000000000 10.0.0.1 10.0.1.1 32 10 5 10 1024 -> Authorised 32 10 5 | 1
list 5000000000 10.0.0.1 10.0.1.1 32 10 5 10 1024 -> Authorised 32 10 5 | 1
list 5000000000 10.0.0.1 10.0.1.1 32 10 5 10 1024 -> Authorised 32 10 5 | 1
list 5000000000 10.0.0.1 10.0.1.1 32 10 5 10 1024 -> Authorised 32 10 5 | 1
list 5000000000 10.0.0.1 10.0.1.1 32 10 5 10 1024 -> Authorised 32 10 5 | 1
list 5000000000 10.0.0.1 10.0.1.1 32 10 5 10 1024 -> Authorised 32 10 5 | 1
list 5000000000 10.0.0.1 10.0.1.1 32 10 5 10 1024 -> Authorised 32 10 5 | 1
list 5000000000 10.0.0.1 10.0.1.1 32 10 5 10 1024 -> Authorised 32 10 5 | 1
list 5000000000 10.0.0.1 10.0.1.1 32 10 5 10 1024 -> Authorised 32 10 5 | 1
list 5000000000 10.0.0.1 10.0.1.1 32 10 5 10 1024 -> Authorised 32 10 5 | 1
list 5000000000 10.0.0.1 10.0.1.1 32 10 5 10 1024 -> Authorised 32 10 5 | 1
list 5000000000 10.0.0.1 10.0.1.1 32 10 5 10 1024 -> Authorised 32 10 5 | 1
list 5000000000 10.0.0.1 10.0.1.1 32 10 5 10 1024 -> Authorised 32 10 5 | 1
list 5000000000 10.0.0.1 10.0.1.1 32 10 5 10 1024 -> Authorised 32 10 5 | 1
list 5000000000 10.0.0.1 10.0.1.1 32 10 5 10 1024 -> Authorised 32 10 5 | 1
list 5000000000 10.0.0.1 10.0.1.1 32 10 5 10 1024 -> Authorised 32 10 5 | 1
list 5000000000 10.0.0.1 10.0.1.1 32 10 5 10 1024 -> Authorised 32 10 5 | 1
list 5000000000 10.0.0.1 10.0.1.1 32 10 5 10 1024 -> Authorised 32 10 5 | 1
list 5000000000 10.0.0.1 10.0.1.1 32 10 5 10 1024 -> Authorised 32 10 5 | 1
list 5000000000 10.0.0.1 10.0.1.1 32 10 5 10 1024 -> Authorised 32 10 5 | 1
list 5000000000 10.0.0.1 10.0.1.1 32 10 5 10 1024 -> Authorised 32 10 5 | 1
list 5000000000 10.0.0.1 10.0.1.1 32 10 5 10 1024 -> OverN | 1
nonce 5000000000 10.0.0.1 10.0.1.1 10 20 -> OverN | 1
case no units at all
cache 1 0
list 5000000000 10.0.0.1 10.0.1.1 0 10 5 10 20 -> OverN | 0
list 5000000000 10.0.0.2 10.0.1.1 1 10 5 10 20 -> Authorised 1 10 5 | 1
list 5000000000 10.0.0.1 10.0.1.1 0 10 5 10 20 -> OverN | 1
list 5000000000 10.0.0.2 10.0.1.1 0 10 6 10 20 -> OverN | 1
list 5000000000 10.0.0.2 10.0.1.1 0 10 5 10 20 -> Superseded | 1
case a newer second replaces a living grant
cache 8 0
list 6000000000 10.0.0.1 10.0.1.1 1 16 5 10 64 -> Authorised 1 16 5 | 1
list 6500000000 10.0.0.1 10.0.1.1 1 16 6 11 64 -> Authorised 1 16 6 | 1
nonce 6600000000 10.0.0.1 10.0.1.1 10 28 -> UnknownNonce | 1
nonce 7999999999 10.0.0.1 10.0.1.1 11 20 -> Authorised 1 16 6 | 1
nonce 8300000000 10.0.0.1 10.0.1.1 11 20 -> Authorised 1 16 6 | 1
nonce 8625000000 10.0.0.1 10.0.1.1 11 20 -> UnknownNonce | 0
case an older second is refused while the newer lives
cache 8 0
list 6000000000 10.0.0.1 10.0.1.1 1 16 5 10 64 -> Authorised 1 16 5 | 1
list 6500000000 10.0.0.1 10.0.1.1 1 16 6 10 64 -> Authorised 1 16 6 | 1
list 7500000000 10.0.0.1 10.0.1.1 1 16 5 10 64 -> Superseded | 1
list 7999999999 10.0.0.1 10.0.1.1 1 16 5 10 64 -> Superseded | 1
list 8000000000 10.0.0.1 10.0.1.1 1 16 5 10 64 -> Authorised 1 16 5 | 1
list 8500000000 10.0.0.1 10.0.1.1 1 16 6 10 64 -> Authorised 1 16 6 | 1
case the same second with other rights
cache 8 0
list 5000000000 10.0.0.1 10.0.1.1 32 10 5 10 1024 -> Authorised 32 10 5 | 1
list 5000000000 10.0.0.1 10.0.1.1 64 10 5 10 1024 -> Superseded | 1
list 5000000000 10.0.0.1 10.0.1.1 32 11 5 10 1024 -> Superseded | 1
list 5000000000 10.0.0.1 10.0.1.1 32 9 5 10 1024 -> Superseded | 1
list 5100000000 10.0.0.1 10.0.1.1 64 10 6 10 1024 -> Authorised 64 10 6 | 1
list 5100000000 10.0.0.1 10.0.1.1 32 10 6 10 1024 -> Superseded | 1
case supersession before the budget and before a full cache
cache 1 0
list 7000000000 10.0.0.1 10.0.1.1 1 10 6 10 1000 -> Authorised 1 10 6 | 1
list 7000000000 10.0.0.1 10.0.1.1 1 10 5 10 1024 -> Superseded | 1
list 7000000000 10.0.0.1 10.0.1.1 1 10 7 10 1025 -> OverN | 1
list 7000000000 10.0.0.1 10.0.1.1 1 10 7 10 1024 -> Authorised 1 10 7 | 1
list 7000000000 10.0.0.2 10.0.1.1 1 10 7 10 1025 -> OverN | 1
list 7000000000 10.0.0.2 10.0.1.1 1 10 7 10 1024 -> CacheFull | 1
case an older grant comes back when both lives are over
cache 8 0
list 5000000000 10.0.0.1 10.0.1.1 1 16 5 10 1000 -> Authorised 1 16 5 | 1
list 5000000000 10.0.0.1 10.0.1.1 1 16 6 10 1000 -> Authorised 1 16 6 | 1
list 5000000000 10.0.0.1 10.0.1.1 1 16 5 10 20 -> Superseded | 1
list 36249999999 10.0.0.1 10.0.1.1 1 16 5 10 20 -> Superseded | 1
list 36250000000 10.0.0.1 10.0.1.1 1 16 5 10 1024 -> Authorised 1 16 5 | 1
case a full cache
cache 2 0
list 5000000000 10.0.0.1 10.0.1.1 1 2 5 10 512 -> Authorised 1 2 5 | 1
list 5500000000 10.0.0.2 10.0.1.1 1 2 5 10 512 -> Authorised 1 2 5 | 2
list 5900000000 10.0.0.3 10.0.1.1 1 2 5 10 512 -> CacheFull | 2
list 5999999999 10.0.0.3 10.0.1.1 1 2 5 10 512 -> CacheFull | 2
list 5999999999 10.0.0.2 10.0.1.1 1 2 5 10 20 -> Authorised 1 2 5 | 2
list 6000000000 10.0.0.3 10.0.1.1 1 2 5 10 512 -> Authorised 1 2 5 | 2
list 6000000000 10.0.0.1 10.0.1.1 1 2 5 10 512 -> CacheFull | 2
case a cache without slots
cache 0 0
list 5000000000 10.0.0.1 10.0.1.1 1 2 5 10 512 -> CacheFull | 0
nonce 5000000000 10.0.0.1 10.0.1.1 10 28 -> UnknownNonce | 0
list 5000000000 10.0.0.1 10.0.1.1 0 2 5 10 512 -> OverN | 0
list 5000000000 10.0.0.1 10.0.1.1 1 2 5 10 1025 -> OverN | 0
case a full cache still takes its living flows
cache 1 0
list 5000000000 10.0.0.1 10.0.1.1 4 10 5 10 512 -> Authorised 4 10 5 | 1
nonce 5100000000 10.0.0.1 10.0.1.1 10 512 -> Authorised 4 10 5 | 1
list 5200000000 10.0.0.1 10.0.1.1 4 10 5 10 512 -> Authorised 4 10 5 | 1
list 5300000000 10.0.0.1 10.0.1.1 4 10 6 10 512 -> Authorised 4 10 6 | 1
list 5300000000 10.0.0.2 10.0.1.1 4 10 6 10 512 -> CacheFull | 1
nonce 5300000000 10.0.0.2 10.0.1.1 10 28 -> UnknownNonce | 1
case a slot is used again
cache 1 0
list 5000000000 10.0.0.1 10.0.1.1 1 2 5 10 512 -> Authorised 1 2 5 | 1
list 6000000000 10.0.0.2 10.0.1.1 1 2 6 10 512 -> Authorised 1 2 6 | 1
list 6500000000 10.0.0.1 10.0.1.1 1 2 6 10 20 -> CacheFull | 1
nonce 6500000000 10.0.0.1 10.0.1.1 10 20 -> UnknownNonce | 1
list 7000000000 10.0.0.3 10.0.1.1 1 2 7 10 20 -> Authorised 1 2 7 | 1
list 7039062499 10.0.0.1 10.0.1.1 1 2 7 10 20 -> CacheFull | 1
list 7039062500 10.0.0.1 10.0.1.1 1 2 7 10 20 -> Authorised 1 2 7 | 1
case the nonce of another flow
cache 8 0
list 5000000000 10.0.0.1 10.0.1.1 32 10 5 10 1024 -> Authorised 32 10 5 | 1
nonce 5100000000 10.0.0.2 10.0.1.1 10 28 -> UnknownNonce | 1
nonce 5100000000 10.0.1.1 10.0.0.1 10 28 -> UnknownNonce | 1
nonce 5100000000 10.0.0.1 10.0.1.1 11 28 -> UnknownNonce | 1
nonce 5100000000 10.0.0.1 10.0.1.1 10 28 -> Authorised 32 10 5 | 1
case the last nonce is the one that counts
cache 8 0
list 5000000000 10.0.0.1 10.0.1.1 32 10 5 10 1024 -> Authorised 32 10 5 | 1
list 5000000000 10.0.0.1 10.0.1.1 32 10 5 11 1024 -> Authorised 32 10 5 | 1
nonce 5100000000 10.0.0.1 10.0.1.1 10 28 -> UnknownNonce | 1
nonce 5100000000 10.0.0.1 10.0.1.1 11 28 -> Authorised 32 10 5 | 1
list 5200000000 10.0.0.1 10.0.1.1 32 10 5 0 20 -> Authorised 32 10 5 | 1
nonce 5200000000 10.0.0.1 10.0.1.1 0 28 -> Authorised 32 10 5 | 1
case T is over for a nonce
cache 8 0
list 5000000000 10.0.0.1 10.0.1.1 1 2 5 10 1000 -> Authorised 1 2 5 | 1
nonce 6900000000 10.0.0.1 10.0.1.1 10 20 -> Authorised 1 2 5 | 1
nonce 6953124999 10.0.0.1 10.0.1.1 10 20 -> OverN | 1
list 6960000000 10.0.0.1 10.0.1.1 2 2 6 10 1500 -> Authorised 2 2 6 | 1
nonce 7999999999 10.0.0.1 10.0.1.1 10 20 -> Authorised 2 2 6 | 1
nonce 8000000000 10.0.0.1 10.0.1.1 10 20 -> Expired | 1
nonce 8100000000 10.0.0.1 10.0.1.1 10 1000 -> Expired | 1
nonce 8100000000 10.0.0.1 10.0.1.1 11 20 -> UnknownNonce | 1
case the clock offset counts for a nonce
cache 8 500000000
list 5000000000 10.0.0.1 10.0.1.1 2 2 5 10 2000 -> Authorised 2 2 5 | 1
nonce 6499999999 10.0.0.1 10.0.1.1 10 20 -> Authorised 2 2 5 | 1
nonce 6500000000 10.0.0.1 10.0.1.1 10 20 -> Expired | 1
case a nonce packet of an ended life
cache 8 0
list 5000000000 10.0.0.1 10.0.1.1 1 2 5 10 512 -> Authorised 1 2 5 | 1
nonce 5999999999 10.0.0.1 10.0.1.1 10 256 -> Authorised 1 2 5 | 1
nonce 6499999999 10.0.0.1 10.0.1.1 10 20 -> Authorised 1 2 5 | 1
nonce 6539062500 10.0.0.1 10.0.1.1 10 20 -> UnknownNonce | 0
case over N for a nonce
cache 8 0
list 5000000000 10.0.0.1 10.0.1.1 1 10 5 10 1000 -> Authorised 1 10 5 | 1
nonce 5000000000 10.0.0.1 10.0.1.1 10 25 -> OverN | 1
nonce 5000000000 10.0.0.1 10.0.1.1 10 2048 -> OverN | 1
nonce 5000000000 10.0.0.1 10.0.1.1 10 24 -> Authorised 1 10 5 | 1
nonce 5000000000 10.0.0.1 10.0.1.1 10 20 -> OverN | 1
nonce 14999999999 10.0.0.1 10.0.1.1 10 20 -> OverN | 1
nonce 15000000000 10.0.0.1 10.0.1.1 10 20 -> UnknownNonce | 0
case expiry of a nonce before its budget
cache 8 0
list 5000000000 10.0.0.1 10.0.1.1 1 2 4 10 1024 -> Authorised 1 2 4 | 1
nonce 5500000000 10.0.0.1 10.0.1.1 10 20 -> OverN | 1
nonce 6000000000 10.0.0.1 10.0.1.1 10 20 -> Expired | 1
case the count after a new run
cache 8 0
list 5000000000 10.0.0.1 10.0.1.1 1 10 5 10 200 -> Authorised 1 10 5 | 1
nonce 5500000000 10.0.0.1 10.0.1.1 10 300 -> Authorised 1 10 5 | 1
nonce 6000000000 10.0.0.1 10.0.1.1 10 524 -> Authorised 1 10 5 | 1
nonce 6000000000 10.0.0.1 10.0.1.1 10 20 -> OverN | 1
list 15000000000 10.0.0.1 10.0.1.1 1 10 6 10 1000 -> Authorised 1 10 6 | 1
list 15100000000 10.0.0.1 10.0.1.1 1 10 5 10 20 -> Superseded | 1
list 24765625000 10.0.0.1 10.0.1.1 1 10 6 10 1024 -> Authorised 1 10 6 | 1
case many flows come and go
cache 4 0
list 5000000000 10.0.0.1 10.0.1.1 1 16 5 10 64 -> Authorised 1 16 5 | 1
list 5000000000 10.0.0.2 10.0.1.1 1 16 5 10 128 -> Authorised 1 16 5 | 2
list 5000000000 10.0.0.3 10.0.1.1 1 16 5 10 192 -> Authorised 1 16 5 | 3
list 5000000000 10.0.0.4 10.0.1.1 1 16 5 10 256 -> Authorised 1 16 5 | 4
list 5999999999 10.0.0.5 10.0.1.1 1 16 5 10 64 -> CacheFull | 4
list 6000000000 10.0.0.5 10.0.1.1 1 16 5 10 320 -> Authorised 1 16 5 | 4
nonce 7000000000 10.0.0.1 10.0.1.1 10 20 -> UnknownNonce | 3
nonce 8000000000 10.0.0.1 10.0.1.1 10 20 -> UnknownNonce | 2
nonce 9000000000 10.0.0.1 10.0.1.1 10 20 -> UnknownNonce | 1
nonce 10999999999 10.0.0.1 10.0.1.1 10 20 -> UnknownNonce | 1
nonce 11000000000 10.0.0.1 10.0.1.1 10 20 -> UnknownNonce | 0
case seconds of a list are not this call's matter
cache 8 0
list 100000000000 10.0.0.1 10.0.1.1 1 1 5 10 512 -> Authorised 1 1 5 | 1
nonce 100000000000 10.0.0.1 10.0.1.1 10 20 -> Expired | 1
case the greatest lengths and seconds
cache 8 0
list 999999000000000 10.0.0.1 10.0.1.1 1023 63 2000000 281474976710655 2048 -> Authorised 1023 63 2000000 | 1
nonce 999999000000000 10.0.0.1 10.0.1.1 281474976710655 2048 -> Authorised 1023 63 2000000 | 1
nonce 999999000000000 10.0.0.1 10.0.1.1 281474976710655 2048 -> Authorised 1023 63 2000000 | 1
nonce 999999000000000 10.0.0.1 10.0.1.1 281474976710655 2048 -> Authorised 1023 63 2000000 | 1
nonce 1000000000000000 10.0.0.1 10.0.1.1 281474976710655 2048 -> UnknownNonce | 0
case a long mix with two slots
cache 2 0
list 5001000000 10.0.0.3 10.0.1.1 2 2 5 10 700 -> Authorised 2 2 5 | 1
list 5301000000 10.0.0.1 10.0.1.1 1 3 5 10 20 -> Authorised 1 3 5 | 2
nonce 5401000000 10.0.0.3 10.0.1.1 10 256 -> Authorised 2 2 5 | 1
list 5401000000 10.0.0.1 10.0.1.1 1 2 5 10 700 -> Authorised 1 2 5 | 2
list 5401000001 10.0.0.3 10.0.1.1 1 2 4 10 512 -> Superseded | 2
nonce 5402000001 10.0.0.1 10.0.1.1 11 256 -> UnknownNonce | 2
nonce 5402000002 10.0.0.3 10.0.1.1 10 256 -> Authorised 2 2 5 | 2
nonce 5402000003 10.0.0.2 10.0.1.1 11 20 -> UnknownNonce | 2
list 5402000003 10.0.0.1 10.0.1.1 1 3 5 10 20 -> Superseded | 2
list 5702000003 10.0.0.1 10.0.1.1 1 2 5 11 700 -> OverN | 2
list 5703000003 10.0.0.1 10.0.1.1 1 2 4 11 512 -> Superseded | 2
list 5703000003 10.0.0.2 10.0.1.1 1 3 5 10 256 -> CacheFull | 2
list 6003000003 10.0.0.1 10.0.1.1 1 3 6 10 256 -> Authorised 1 3 6 | 2
nonce 6004000003 10.0.0.1 10.0.1.1 10 100 -> Authorised 1 3 6 | 2
list 6304000003 10.0.0.3 10.0.1.1 1 3 6 10 512 -> Authorised 1 3 6 | 2
nonce 6404000003 10.0.0.2 10.0.1.1 10 20 -> UnknownNonce | 2
nonce 6404000003 10.0.0.3 10.0.1.1 10 20 -> Authorised 1 3 6 | 2
list 6404000003 10.0.0.1 10.0.1.1 1 2 5 11 512 -> Superseded | 2
list 6405000003 10.0.0.1 10.0.1.1 1 2 5 10 20 -> Superseded | 2
list 6505000003 10.0.0.2 10.0.1.1 1 3 6 11 256 -> CacheFull | 2
nonce 6506000003 10.0.0.1 10.0.1.1 11 20 -> UnknownNonce | 2
nonce 6606000003 10.0.0.1 10.0.1.1 10 256 -> Authorised 1 3 6 | 2
nonce 6906000003 10.0.0.1 10.0.1.1 11 100 -> UnknownNonce | 2
list 7006000003 10.0.0.1 10.0.1.1 1 2 7 10 512 -> Authorised 1 2 7 | 2
list 7006000003 10.0.0.3 10.0.1.1 2 2 7 11 256 -> Authorised 2 2 7 | 2
list 7306000003 10.0.0.1 10.0.1.1 1 3 6 10 512 -> Superseded | 2
nonce 7306000003 10.0.0.1 10.0.1.1 10 100 -> Authorised 1 2 7 | 2
list 7307000003 10.0.0.3 10.0.1.1 1 2 7 11 512 -> Superseded | 2
list 7407000003 10.0.0.1 10.0.1.1 1 2 7 11 256 -> Authorised 1 2 7 | 2
nonce 7507000003 10.0.0.1 10.0.1.1 11 100 -> Authorised 1 2 7 | 2
nonce 7807000003 10.0.0.2 10.0.1.1 10 256 -> UnknownNonce | 2
list 8107000003 10.0.0.1 10.0.1.1 2 2 8 11 256 -> Authorised 2 2 8 | 2
list 8107000003 10.0.0.1 10.0.1.1 1 3 7 10 256 -> Superseded | 2
list 8107000004 10.0.0.2 10.0.1.1 1 3 8 11 20 -> CacheFull | 2
nonce 8108000004 10.0.0.1 10.0.1.1 11 100 -> Authorised 2 2 8 | 2
nonce 8208000004 10.0.0.1 10.0.1.1 10 20 -> UnknownNonce | 1
nonce 8508000004 10.0.0.1 10.0.1.1 11 256 -> Authorised 2 2 8 | 1
nonce 8508000005 10.0.0.3 10.0.1.1 11 100 -> UnknownNonce | 1
list 8509000005 10.0.0.1 10.0.1.1 2 2 8 11 20 -> Authorised 2 2 8 | 1
list 8510000005 10.0.0.1 10.0.1.1 2 2 8 11 700 -> Authorised 2 2 8 | 1
list 8510000006 10.0.0.1 10.0.1.1 1 2 7 10 256 -> Superseded | 1
list 8510000007 10.0.0.3 10.0.1.1 1 2 8 11 512 -> Authorised 1 2 8 | 2
nonce 8510000007 10.0.0.3 10.0.1.1 10 20 -> UnknownNonce | 2
list 8511000007 10.0.0.1 10.0.1.1 1 3 8 10 256 -> Superseded | 2
nonce 8512000007 10.0.0.2 10.0.1.1 10 256 -> UnknownNonce | 2
nonce 8512000007 10.0.0.2 10.0.1.1 10 100 -> UnknownNonce | 2
nonce 8513000007 10.0.0.2 10.0.1.1 11 100 -> UnknownNonce | 2
nonce 8813000007 10.0.0.3 10.0.1.1 11 100 -> Authorised 1 2 8 | 2
list 8813000007 10.0.0.1 10.0.1.1 2 2 8 11 512 -> Authorised 2 2 8 | 2
nonce 8813000008 10.0.0.1 10.0.1.1 11 100 -> Authorised 2 2 8 | 2
nonce 8813000008 10.0.0.1 10.0.1.1 11 20 -> Authorised 2 2 8 | 2
nonce 8813000008 10.0.0.1 10.0.1.1 10 100 -> UnknownNonce | 2
nonce 8813000008 10.0.0.2 10.0.1.1 10 20 -> UnknownNonce | 2
list 8814000008 10.0.0.2 10.0.1.1 1 2 8 10 256 -> CacheFull | 2
nonce 8814000008 10.0.0.2 10.0.1.1 10 100 -> UnknownNonce | 2
list 9114000008 10.0.0.1 10.0.1.1 2 2 9 10 700 -> Authorised 2 2 9 | 2
nonce 9115000008 10.0.0.1 10.0.1.1 10 100 -> Authorised 2 2 9 | 2
list 9215000008 10.0.0.2 10.0.1.1 2 2 9 10 20 -> CacheFull | 2
nonce 9215000008 10.0.0.1 10.0.1.1 10 100 -> Authorised 2 2 9 | 2
list 9315000008 10.0.0.2 10.0.1.1 2 2 9 11 20 -> CacheFull | 2
";
