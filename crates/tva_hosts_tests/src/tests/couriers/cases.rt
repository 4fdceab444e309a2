// Calls on the couriers A, B and C, whose hosts grant nobody, with the answers that the rules give. Packets
// are counted from 1 in the order in which they come into being. `A file B 100 60` begins a transfer of 100
// bytes in segments of 60, `A tick B` ticks, `A send B` sends a packet without an upper part, and `A recv 1`
// is that packet 1 comes in at A. The answer is the upper part that is sent, and of a receipt the range that
// is delivered before it. `part C A ack/0/60` is a packet from C to A that no courier made.
pub const CASES: &str = "\
case a segment is lost and sent again, and a repeat delivers nothing
A file B 100 60 -> data/0/0/60
A tick B -> data/0/0/60
B recv 2 -> 0:0:60 ack/0/60
B recv 2 -> - ack/0/60
A recv 3 -> - data/0/60/40
A recv 4 -> - -
B recv 5 -> 0:60:40 ack/0/100
A recv 6 -> - -
A tick B -> -
case several transfers at once to two destinations
A file B 100 60 -> data/0/0/60
A file C 50 60 -> data/1/0/50
A file B 70 40 -> data/2/0/40
B recv 3 -> 2:0:40 ack/2/40
C recv 2 -> 1:0:50 ack/1/50
A tick B -> data/0/0/60
A tick C -> data/1/0/50
A recv 4 -> - data/2/40/30
A recv 5 -> - -
A tick C -> -
A tick B -> data/0/0/60
B recv 8 -> 2:40:30 ack/2/70
A recv 10 -> - -
A tick B -> data/0/0/60
B recv 1 -> 0:0:60 ack/0/60
A recv 12 -> - data/0/60/40
A tick B -> data/0/60/40
B recv 13 -> 0:60:40 ack/0/100
A recv 15 -> - -
A tick B -> -
case a tick is of the first that isn't done, and of its destination alone
A tick B -> -
A file B 10 10 -> data/0/0/10
A file B 20 10 -> data/1/0/10
A tick A -> -
A tick C -> -
A tick B -> data/0/0/10
B recv 1 -> 0:0:10 ack/0/10
A recv 4 -> - -
A tick B -> data/1/0/10
case acknowledgements of others, of no transfer, of too much and of less
A file B 100 60 -> data/0/0/60
part C A ack/0/60 -> ack/0/60
A recv 2 -> - -
part B A ack/1/60 -> ack/1/60
A recv 3 -> - -
part B C ack/0/60 -> ack/0/60
A recv 4 -> - -
A tick B -> data/0/0/60
part B A ack/0/0 -> ack/0/0
A recv 6 -> - -
part B A ack/0/7 -> ack/0/7
A recv 7 -> - data/0/7/60
part B A ack/0/6 -> ack/0/6
A recv 9 -> - -
A tick B -> data/0/7/60
part B A ack/0/99 -> ack/0/99
A recv 11 -> - data/0/99/1
A recv 11 -> - -
part B A ack/0/101 -> ack/0/101
A recv 13 -> - -
A tick B -> -
A recv 13 -> - -
case ranges past a gap, of another transfer, of another source, and for another host
part A B data/5/10/20 -> data/5/10/20
B recv 1 -> - ack/5/0
part A B data/5/0/10 -> data/5/0/10
B recv 3 -> 5:0:10 ack/5/10
B recv 1 -> 5:10:20 ack/5/30
B recv 3 -> - ack/5/30
part C B data/5/0/7 -> data/5/0/7
B recv 7 -> 5:0:7 ack/5/7
part A B data/65535/0/1500 -> data/65535/0/1500
B recv 9 -> 65535:0:1500 ack/65535/1500
part A C data/5/30/1 -> data/5/30/1
B recv 11 -> - -
part A B data/5/29/2 -> data/5/29/2
B recv 12 -> - ack/5/30
part A B data/5/30/0 -> data/5/30/0
B recv 14 -> 5:30:0 ack/5/30
B recv 14 -> 5:30:0 ack/5/30
part A B data/5/30/1 -> data/5/30/1
B recv 17 -> 5:30:1 ack/5/31
case a host that sends to itself
A file A 3 2 -> data/0/0/2
A tick A -> data/0/0/2
A recv 1 -> 0:0:2 ack/0/2
A recv 2 -> - ack/0/2
A recv 3 -> - data/0/2/1
A recv 4 -> - -
A recv 5 -> 0:2:1 ack/0/3
A recv 6 -> - -
A tick A -> -
A file A 1 1 -> data/1/0/1
A recv 7 -> 1:0:1 ack/1/1
case segments of 1 and of 1,500 bytes
A file B 3 1 -> data/0/0/1
B recv 1 -> 0:0:1 ack/0/1
A recv 2 -> - data/0/1/1
B recv 3 -> 0:1:1 ack/0/2
A recv 4 -> - data/0/2/1
B recv 5 -> 0:2:1 ack/0/3
A recv 6 -> - -
A file B 3001 1500 -> data/1/0/1500
B recv 7 -> 1:0:1500 ack/1/1500
A recv 8 -> - data/1/1500/1500
B recv 9 -> 1:1500:1500 ack/1/3000
A recv 10 -> - data/1/3000/1
A file B 100000000 1500 -> data/2/0/1500
A file B 1 1500 -> data/3/0/1
part B A ack/2/99999999 -> ack/2/99999999
A recv 14 -> - data/2/99999999/1
part B A ack/2/4000000000 -> ack/2/4000000000
A recv 16 -> - -
case packets without an upper part
A send B -> -
B recv 1 -> - -
A file B 5 9 -> data/0/0/5
A send B -> -
A tick B -> data/0/0/5
";
