use std::cmp::Ordering;
use tva_base::{
    Address, Caps, Event, Flow, Grant, HostPlan, Key, Line, Listed, Name, Rights, Route,
    RouterPlan, Totals, address, carries, credit, decimal, grants_are_ordered, prefix, rights_in,
    rights_number, rights_size, version_for,
};

// Lengths, units, seconds and credits in nanoseconds.
const CREDITS: &str = "\
512|1|2|1000000000
1024|32|10|312500000
64|1|16|1000000000
1023|1|2|1998046875
1024|1|1|1000000000
2048|2|1|1000000000
0|1|10|0
20|1|0|0
40|3|1|13020834
28|3|1|9114584
39|3|1|12695313
48|3|1|15625000
1|1023|1|955
20|1023|1|19093
20|1023|63|1202805
2048|1023|63|123167156
2048|1|63|126000000000
2047|1|63|125938476563
2048|1023|1|1955035
1023|1023|1|976563
1|1|1|976563
1|1|63|61523438
52|32|10|15869141
28|32|10|8544922
1028|32|10|313720704
1040|32|10|317382813
1500|7|13|2720424108
1501|1021|61|87575945
514|1024|64|31372071
28|1024|64|1708985
20|1048575|127|2366
2048|1048575|127|242234";

// Versions, rights, and their number, where a shim of the version can carry them.
const RIGHTS: &str = "\
1|0|0|0
1|32|10|2058
1|1|2|66
1|1023|63|65535
1|1024|63|none
1|1023|64|none
1|1048575|127|none
2|0|0|0
2|32|10|4106
2|1023|63|131007
2|1024|64|131136
2|1048575|127|134217727
2|1048576|0|none
2|0|128|none
2|1049600|64|none
2|4294967295|255|none";

// What is read, a text, and what it is read as: an address as its number, a prefix as 64 times the number of its address
// and its bits, an address and a prefix as 1 where the one begins with the other, and a number up to the greatest.
const READ: &str = "\
address|10.0.0.1|167772161
address|0.0.0.0|0
address|255.255.255.255|4294967295
address|1.2.3.4|16909060
address|192.168.100.200|3232261320
address||none
address|10.0.0|none
address|10.0.0.|none
address|10.0.0.1.|none
address|.10.0.0.1|none
address|10.0.0.1.2|none
address|10..0.1|none
address|256.0.0.1|none
address|10.0.0.256|none
address|10.0.0.999|none
address|10.0.0.1000|none
address|10.0.0.01|none
address|00.0.0.1|none
address|010.0.0.1|none
address| 10.0.0.1|none
address|10.0.0.1 |none
address|10.0. 0.1|none
address|+10.0.0.1|none
address|10.0.0.-1|none
address|10.0.0.a|none
address|0x0a.0.0.1|none
address|10,0,0,1|none
address|10.0.0.1/32|none
address|167772161|none
address|...|none
address|1.1.1.1.1.1.1.1|none
prefix|10.0.0.0/24|10737418264
prefix|10.0.1.77/24|10737434648
prefix|10.0.1.77/0|0
prefix|255.255.255.255/0|0
prefix|255.255.255.255/1|137438953473
prefix|255.255.255.255/31|274877906847
prefix|10.0.1.77/32|10737439584
prefix|0.0.0.0/32|32
prefix|172.16.99.1/12|184750702604
prefix|10.0.1.77/23|10737418263
prefix|10.0.1.77/33|none
prefix|10.0.1.77/08|none
prefix|10.0.1.77/00|none
prefix|10.0.1.77/|none
prefix|10.0.1.77|none
prefix|/24|none
prefix||none
prefix|10.0.1/24|none
prefix|10.0.1.77/-1|none
prefix|10.0.1.77/+1|none
prefix|10.0.1.77/ 24|none
prefix|10.0.1.77 /24|none
prefix|10.0.1.77/24/24|none
prefix|10.0.1.77//24|none
prefix|10.0.1.077/24|none
prefix|10.0.1.77/024|none
prefix|10.0.1.77/100|none
prefix|10.0.1.77/2a|none
holds 10.0.1.0|10.0.1.0/24|1
holds 10.0.1.255|10.0.1.0/24|1
holds 10.0.2.0|10.0.1.0/24|0
holds 10.0.0.255|10.0.1.0/24|0
holds 0.0.0.0|0.0.0.0/0|1
holds 255.255.255.255|0.0.0.0/0|1
holds 127.255.255.255|128.0.0.0/1|0
holds 128.0.0.0|128.0.0.0/1|1
holds 10.0.1.77|10.0.1.77/32|1
holds 10.0.1.76|10.0.1.77/32|0
holds 10.0.1.77|10.0.1.76/31|1
holds 10.0.1.78|10.0.1.76/31|0
most 0|0|0
most 7|7|7
most 7|8|none
most 7|007|7
most 7||none
most 7|+1|none
most 7|-1|none
most 7| 1|none
most 7|1 |none
most 100|1_0|none
most 100|1.0|none
most 100|1e1|none
most 100|0x1|none
most 100|a|none
most 18446744073709551615|99999999999999999999|none
most 18446744073709551615|18446744073709551615|18446744073709551615
most 18446744073709551615|18446744073709551616|none
most 18446744073709551614|18446744073709551615|none
most 7|00000000000000000001|1
most 7|000000000000000000001|none
most 0|00000000000000000000|0
most 0|000000000000000000000|none
most 1000000000000000|1000000000000000|1000000000000000
most 1000000000000000|1000000000000001|none
most 8|9|none
most 9|10|none
most 1600|1600|1600
most 1600|01601|none";

// The number in a word, and none where it says so.
fn number(word: Option<&str>) -> Option<u64> {
    word.and_then(|word| word.parse().ok())
}

// What a text is read as.
fn reading(what: &str, text: &[u8]) -> Option<u64> {
    match what.split_once(' ') {
        Some(("most", most)) => decimal(text, most.parse().unwrap_or(0)),
        Some((_, held)) => Some(u64::from(prefix(text)?.holds(address(held.as_bytes())?))),
        None if what == "address" => Some(u64::from(address(text)?.0)),
        None => {
            let prefix = prefix(text)?;
            Some(u64::from(prefix.address.0) * 64 + u64::from(prefix.bits))
        }
    }
}

// Whether the text in a line is read as what the line says.
fn is_read(line: &str) -> bool {
    let mut words = line.split('|');
    let (what, text) = (words.next().unwrap_or(""), words.next().unwrap_or(""));
    reading(what, text.as_bytes()) == number(words.next())
}

// Rights in two words.
fn rights_of(n: Option<&str>, t: Option<&str>) -> Rights {
    Rights {
        n: u32::try_from(number(n).unwrap_or(0)).unwrap_or(0),
        t: u8::try_from(number(t).unwrap_or(0)).unwrap_or(0),
    }
}

// Whether the credit in a line is that of its length and its rights.
fn is_credit(line: &str) -> bool {
    let mut words = line.split('|');
    let length = u32::try_from(number(words.next()).unwrap_or(0)).unwrap_or(0);
    let rights = rights_of(words.next(), words.next());
    rights.n >= 1 && length <= 2048 && Some(credit(length, rights)) == number(words.next())
}

// Whether a shim of a line's version carries its rights under its number, where it has one.
fn is_carried(line: &str) -> bool {
    let mut words = line.split('|');
    let version = u8::try_from(number(words.next()).unwrap_or(0)).unwrap_or(0);
    let rights = rights_of(words.next(), words.next());
    match number(words.next()) {
        Some(number) => {
            carries(version, rights)
                && u64::from(rights_number(version, rights)) == number
                && rights_in(version, rights_number(version, rights)) == Some(rights)
        }
        None => !carries(version, rights),
    }
}

#[test]
fn texts_are_read(rt: HostRuntime) {
    for line in READ.lines() {
        assert!(rt; is_read(line), "{line}");
    }
    for line in CREDITS.lines() {
        assert!(rt; is_credit(line), "{line}");
    }
    for line in RIGHTS.lines() {
        assert!(rt; is_carried(line), "{line}");
    }
}

#[test]
fn versions_carry_rights(rt: HostRuntime) {
    for number in [0x0800_0000, 0x0802_0040, u32::MAX] {
        assert_eq!(rt; rights_in(2, number), None, "{number}");
    }
    for (n, t, version) in [(0, 0, 1), (1_023, 63, 1), (1_024, 63, 2), (1_023, 64, 2)] {
        let rights = Rights { n, t };
        assert!(rt; carries(2, rights));
        assert_eq!(rt; version_for(rights), version, "{n} {t}");
    }
    assert_eq!(rt; (rights_size(1), rights_size(2)), (2, 4));
}

fn crosses<T: Send + Sync>() {}

// What a node keeps may be moved to and shared with another thread.
#[test]
fn crosses_to_threads() {
    crosses::<Listed<Route>>();
    crosses::<Caps>();
    crosses::<RouterPlan>();
    crosses::<HostPlan>();
    crosses::<Event>();
    crosses::<Totals>();
    crosses::<Line>();
    crosses::<Key>();
}

#[test]
fn lists_give_back_what_they_hold(rt: HostRuntime) -> Result<(), std::test::Fail> {
    let listed = Listed::new(vec![in rt.alloc(); 3, 1, 2]?);
    assert_eq!(rt; listed.len(), 3);
    assert_eq!(rt; listed.as_slice(), [3, 1, 2].as_slice());
    let mut listed = listed;
    listed.set(1, 9);
    assert_eq!(rt; listed.as_slice(), [3, 9, 2].as_slice());
    listed.set(1, 1);
    assert_eq!(rt; listed.into_vec().as_slice(), [3, 1, 2].as_slice());
    let mut caps = Caps::new();
    caps.push(7);
    caps.push(5);
    assert_eq!(rt; caps.copied().as_slice(), [7, 5].as_slice());
    assert_eq!(rt; Name::new("R1").as_str(), "R1");
    assert_eq!(rt; Key::new("horizon_ns").as_str(), "horizon_ns");
    assert_eq!(rt; Line::new(b"in A#1 ~").as_str(), "in A#1 ~");
    Ok(())
}

fn granted(src: u32, dst: u32, n: u32, t: u8, second: u64) -> Grant {
    let flow = Flow {
        src: Address(src),
        dst: Address(dst),
    };
    let rights = Rights { n, t };
    Grant {
        flow,
        rights,
        second,
    }
}

fn sorts<T: Ord>() {}

// Flows, rights and grants can be sorted, and be the keys of a map.
#[test]
fn grants_stand_in_order(rt: HostRuntime) {
    sorts::<Flow>();
    sorts::<Rights>();
    sorts::<Grant>();
    let order = [
        granted(1, 7, 5, 5, 5),
        granted(2, 1, 9, 9, 9),
        granted(2, 3, 4, 9, 9),
        granted(2, 3, 5, 6, 9),
        granted(2, 3, 5, 7, 1),
        granted(2, 3, 5, 7, 2),
    ];
    for (a, b) in order.iter().zip(order.iter().skip(1)) {
        assert_eq!(rt; grants_are_ordered(a, b), Ordering::Less, "{b:?}");
        assert_eq!(rt; grants_are_ordered(b, a), Ordering::Greater, "{b:?}");
        assert_eq!(rt; grants_are_ordered(a, a), Ordering::Equal, "{a:?}");
        assert!(rt; a < b, "{b:?}");
        assert!(rt; a.flow <= b.flow, "{b:?}");
        assert_eq!(rt;
            a.rights.cmp(&b.rights),
            (a.rights.n, a.rights.t).cmp(&(b.rights.n, b.rights.t)),
            "{b:?}"
        );
    }
}
