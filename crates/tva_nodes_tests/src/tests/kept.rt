// Lists of which memory holds the newest elements alone.
use std::test::Fail;
use tva_waiting::Kept;

#[test]
fn what_is_forgotten_is_counted(rt: HostRuntime) -> Result<(), Fail> {
    let mut all: Kept<u32> = Kept::new(rt.alloc());
    assert_eq!(rt; all.count(), 0);
    all.push(1)?;
    all.push(2)?;
    all.push(3)?;
    assert_eq!(rt; all.as_slice().len(), 3);
    assert_eq!(rt; all.news(), [1u32, 2, 3].as_slice());
    all.forget();
    assert_eq!(rt; all.count(), 3);
    assert_eq!(rt; all.as_slice().len(), 0);
    all.push(4)?;
    all.push(5)?;
    assert_eq!(rt; all.as_slice(), [4u32, 5].as_slice());
    all.tell();
    assert_eq!(rt; all.as_slice(), [4u32, 5].as_slice());
    assert_eq!(rt; all.news().len(), 0);
    all.push(6)?;
    assert_eq!(rt; all.news(), [6u32].as_slice());
    Ok(())
}

/// What is handed out is what memory held, elements that own memory too.
#[test]
fn what_is_held_is_handed_out(rt: HostRuntime) -> Result<(), Fail> {
    let mut all: Kept<Vec<u8>> = Kept::new(rt.alloc());
    let mut one: Vec<u8> = Vec::new(rt.alloc());
    one.push(7)?;
    all.note(&one)?;
    all.push(one)?;
    let taken = all
        .take_news(Vec::new(rt.alloc()))
        .ok_or("nothing is handed out")?;
    assert_eq!(rt; taken.len(), 1);
    assert_eq!(rt; taken[0].as_slice(), [7u8].as_slice());
    assert_eq!(rt; all.count(), 2);
    assert_eq!(rt; all.as_slice().len(), 0);
    all.push(Vec::new(rt.alloc()))?;
    all.tell();
    assert!(rt; all.take_news(Vec::new(rt.alloc())).is_none());
    Ok(())
}

/// What is poured leaves its memory to the list in which it stood.
#[test]
fn memory_stays_with_its_list(rt: HostRuntime) -> Result<(), Fail> {
    let mut all: Kept<u32> = Kept::new(rt.alloc());
    for number in 0..1000 {
        all.push(number)?;
    }
    all.forget();
    all.push(1000)?;
    let mut poured = Vec::new(rt.alloc());
    all.pour(&mut poured)?;
    assert_eq!(rt; poured.as_slice(), [1000u32].as_slice());
    assert!(rt; poured.capacity() < 1000);
    Ok(())
}
