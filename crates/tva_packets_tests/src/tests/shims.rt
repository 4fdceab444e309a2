use arrayvec::ArrayVec;
use std::test::Fail;
use tva_base::{Address, Caps, Class, Flow, PacketId, Rights};
use tva_shim::{
    Carried, Entries, Entry, Kind, Packet, PathFull, ReturnInfo, Shim, Shown, class_of, decode,
    encode, inner_queue_key, length, queue_key,
};

const ID: PacketId = PacketId {
    node: 0,
    ordinal: 1,
};

const FLOW: Flow = Flow {
    src: Address(0x0a00_0001),
    dst: Address(0x0a00_0101),
};

/// Layouts: requests, lists, nonce packets and renewals, with and without entries or capabilities,
/// the mark, a notice and a grant, in both versions; last those of sixteen entries and capabilities.
const LAYOUTS: [&str; 36] = [
    "100600",
    "180600",
    "10ff00",
    "100000",
    "100601000105aabbccddeeff00",
    "100602000105aabbccddeeff0000000600000000000001",
    "14060001",
    "1406000200080a",
    "1406000201080a0511223344556677",
    "1c060001",
    "110600000000000a0100080a0500112233445566",
    "110600000000000a010100400500112233445566",
    "110600000000000a0000ffff",
    "190600000000000a0100080a0500112233445566",
    "150600000000000a0100080a050011223344556601",
    "150600000000000a0100080a05001122334455660201004205ffffffffffffff",
    "1206ffffffffffff",
    "1a06000000000000",
    "160600000000000101",
    "160600000000000102000000",
    "130600000000000b0201080a05001122334455660600112233445566",
    "1b0600000000000b0000080a",
    "170600000000000b0000080a01",
    "1F06ABCDEFABCDEF0000080A01",
    "1c0601000105aabbccddeeff000201080a0511223344556677",
    "200600",
    "280600",
    "24060001",
    "210600000000000a0100000200400500112233445566",
    "210600000000000a000007ffffff",
    "2206ffffffffffff",
    "230600000000000b02010000100a05001122334455660600112233445566",
    "24060002010000100a0511223344556677",
    "250600000000000a01000000100a0500112233445566020007ffffff",
    "140610000105001122334455660001050011223344556600010500112233445566000105001122334455660001050011223344556600010500112233445566000105001122334455660001050011223344556600010500112233445566000105001122334455660001050011223344556600010500112233445566000105001122334455660001050011223344556600010500112233445566000105001122334455660210080a0500112233445566050011223344556605001122334455660500112233445566050011223344556605001122334455660500112233445566050011223344556605001122334455660500112233445566050011223344556605001122334455660500112233445566050011223344556605001122334455660500112233445566",
    "2406100001050011223344556600010500112233445566000105001122334455660001050011223344556600010500112233445566000105001122334455660001050011223344556600010500112233445566000105001122334455660001050011223344556600010500112233445566000105001122334455660001050011223344556600010500112233445566000105001122334455660001050011223344556602100000100a0500112233445566050011223344556605001122334455660500112233445566050011223344556605001122334455660500112233445566050011223344556605001122334455660500112233445566050011223344556605001122334455660500112233445566050011223344556605001122334455660500112233445566",
];

#[test]
fn layouts_are_read_and_written(rt: HostRuntime) -> Result<(), Fail> {
    for text in LAYOUTS {
        let bytes = hex::decode(rt.alloc(), text).ok().ok_or(text)?;
        let shim = decode(&bytes).ok_or(text)?;
        let mut written = ArrayVec::new();
        encode(&shim, &mut written);
        assert_eq!(rt; written.as_slice(), bytes.as_slice(), "at {text}");
        let packet = Packet::new(ID, FLOW, 0, 77, Carried::Shim(shim));
        assert_eq!(rt;
            length(&packet.copied()) as usize,
            97 + bytes.len(),
            "at {text}"
        );
    }
    Ok(())
}

#[test]
fn requests_take_sixteen_entries(rt: HostRuntime) {
    let mut shim = Shim::new(
        1,
        false,
        6,
        Kind::Request(Entries::new()),
        ReturnInfo::Notice,
    );
    assert_eq!(rt; shim.tag_key(), 0);
    assert_eq!(rt; shim.inner_key(), 0);
    for (tag, key, inner) in [
        (0, 0, 0),
        (5, 5, 0),
        (7, 7, 5),
        (0, 7, 5),
        (3, 3, 7),
        (3, 3, 3),
    ] {
        assert_eq!(rt; shim.push_entry(Entry { tag, precap: 1 }), Ok(()));
        assert_eq!(rt; shim.tag_key(), key);
        assert_eq!(rt; shim.inner_key(), inner);
    }
    for tag in 0..10 {
        assert_eq!(rt; shim.push_entry(Entry { tag, precap: 1 }), Ok(()));
    }
    assert_eq!(rt; shim.push_entry(Entry { tag: 1, precap: 1 }), Err(PathFull));
    assert_eq!(rt; shim.tag_key(), 9);
    assert_eq!(rt; shim.inner_key(), 8);
}

#[test]
fn routers_change_a_renewal(rt: HostRuntime) {
    let mut caps = Caps::new();
    caps.push(1);
    caps.push(2);
    let shown = Shown {
        nonce: 11,
        pointer: 1,
        rights: Rights { n: 32, t: 10 },
        caps,
    };
    let mut shim = Shim::new(1, false, 6, Kind::Renewal(shown), ReturnInfo::Nothing);
    shim.set_fresh(9);
    shim.advance_pointer();
    let mut written = ArrayVec::new();
    encode(&shim, &mut written);
    assert_eq!(rt;
        written.as_slice(),
        [
            0x13, 6, 0, 0, 0, 0, 0, 11, 2, 2, 8, 10, 0, 0, 0, 0, 0, 0, 0, 1, 0, 0, 0, 0, 0, 0, 0, 9,
        ]
        .as_slice()
    );
    let regular = Packet::new(ID, FLOW, 0, 0, Carried::Shim(shim.copied()));
    assert_eq!(rt; class_of(&regular), Class::Regular);
    shim.demote();
    let marked = Packet::new(ID, FLOW, 0, 0, Carried::Shim(shim));
    assert_eq!(rt; class_of(&marked), Class::Legacy);
}

/// Of a shim, the class, the key by which it is queued, and whether return info is there.
const SHOWN: [(&str, Class, u32, bool); 10] = [
    ("100600", Class::Request, 0, true),
    ("100601000105aabbccddeeff00", Class::Request, 1, true),
    (
        "100602000105aabbccddeeff0000000600000000000001",
        Class::Request,
        1,
        true,
    ),
    ("180601000105aabbccddeeff00", Class::Legacy, 0, true),
    (
        "110600000000000a0100080a0500112233445566",
        Class::Regular,
        0x0a00_0101,
        true,
    ),
    ("1206ffffffffffff", Class::Regular, 0x0a00_0101, true),
    ("1a06000000000000", Class::Legacy, 0, true),
    ("160600000000000101", Class::Regular, 0x0a00_0101, false),
    (
        "130600000000000b0201080a05001122334455660600112233445566",
        Class::Regular,
        0x0a00_0101,
        true,
    ),
    ("14060001", Class::Request, 0, false),
];

#[test]
fn packets_show_their_key(rt: HostRuntime) -> Result<(), Fail> {
    for (text, class, key, bare) in SHOWN {
        let bytes = hex::decode(rt.alloc(), text).ok().ok_or(text)?;
        let shim = decode(&bytes).ok_or(text)?;
        assert_eq!(rt; matches!(shim.back, ReturnInfo::Nothing), bare, "at {text}");
        let packet = Packet::new(ID, FLOW, 0, 0, Carried::Shim(shim));
        assert_eq!(rt; class_of(&packet), class, "at {text}");
        assert_eq!(rt; queue_key(class, &packet), key, "at {text}");
    }
    let legacy = Packet::new(ID, FLOW, 0, 0, Carried::Nothing);
    assert_eq!(rt; queue_key(Class::Legacy, &legacy), 0);
    Ok(())
}

#[test]
fn requests_show_the_tag_before(rt: HostRuntime) {
    let mut shim = Shim::new(
        1,
        false,
        6,
        Kind::Request(Entries::new()),
        ReturnInfo::Nothing,
    );
    for tag in [2, 0, 7, 0] {
        assert_eq!(rt; shim.push_entry(Entry { tag, precap: 1 }), Ok(()));
    }
    let request = Packet::new(ID, FLOW, 0, 0, Carried::Shim(shim));
    assert_eq!(rt; queue_key(Class::Request, &request), 7);
    assert_eq!(rt; inner_queue_key(&request), 2);
    let shim = Shim::new(1, false, 6, Kind::Nonce(2), ReturnInfo::Nothing);
    let regular = Packet::new(ID, FLOW, 0, 0, Carried::Shim(shim));
    assert_eq!(rt; inner_queue_key(&regular), 0);
    let legacy = Packet::new(ID, FLOW, 0, 0, Carried::Nothing);
    assert_eq!(rt; inner_queue_key(&legacy), 0);
}

fn crosses<T: Send + Sync>() {}

/// A packet may be moved to and shared with another thread.
#[test]
fn packets_cross_threads() {
    crosses::<Packet>();
}
