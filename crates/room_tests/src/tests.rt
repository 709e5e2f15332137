//! A room in memory with short pieces, calls that fail and outputs that are full; and real files, written and read
//! back.
use room_io::{Fault, HostRoom, MemRoom, Room, Slot, read_up_to, write_whole};
use std::test::Fail;

#[test]
fn an_open_input_keeps_what_it_has_left(rt: HostRuntime) -> Result<(), Fail> {
    let mut room = MemRoom::new(rt.alloc(), 0)?;
    room.put("a", b"old")?;
    room.put("a", b"abcdefg")?;
    room.pieces(4);
    room.fail(Slot::Capture, 2)?;
    assert_eq!(rt; room.open_in(Slot::Settings, "b"), Err(Fault));
    room.open_in(Slot::Capture, "a")?;
    room.put("a", b"new")?;
    let mut piece = [0; 6];
    assert_eq!(rt; room.read(Slot::Capture, &mut piece), Err(Fault));
    for text in [b"abcd".as_slice(), b"efg", b""] {
        let count = room.read(Slot::Capture, &mut piece)?;
        assert_eq!(rt; piece.get(..count), Some(text));
    }
    assert_eq!(rt;
        (room.faults(Slot::Settings), room.faults(Slot::Capture)),
        (1, 1)
    );
    Ok(())
}

#[test]
fn an_output_is_full_at_its_space(rt: HostRuntime) -> Result<(), Fail> {
    let mut room = MemRoom::new(rt.alloc(), 6)?;
    room.fail(Slot::Log, 3)?;
    room.open_out(Slot::Log, "a")?;
    assert_eq!(rt; write_whole(&mut room, Slot::Log, b"abc"), Ok(()));
    assert_eq!(rt; write_whole(&mut room, Slot::Log, b"d"), Err(Fault));
    assert_eq!(rt; room.written(Slot::Log), b"abc".as_slice());
    assert_eq!(rt; write_whole(&mut room, Slot::Log, b"defg"), Err(Fault));
    assert_eq!(rt; room.written(Slot::Log), b"abcdef".as_slice());
    assert_eq!(rt; write_whole(&mut room, Slot::Note, b"note"), Ok(()));
    assert_eq!(rt; room.written(Slot::Goose), b"".as_slice());
    assert_eq!(rt; (room.faults(Slot::Log), room.faults(Slot::Note)), (2, 0));
    room.open_out(Slot::Data, "b")?;
    assert_eq!(rt; write_whole(&mut room, Slot::Data, b"1,0"), Ok(()));
    assert_eq!(rt; room.written(Slot::Data), b"1,0".as_slice());
    assert_eq!(rt; room.written(Slot::Config), b"".as_slice());
    Ok(())
}

#[test]
fn real_files_are_read_and_written(rt: HostRuntime) -> Result<(), Fail> {
    let mut room = HostRoom::new(&rt);
    room.open_out(Slot::Log, "room_io_test.txt")?;
    write_whole(&mut room, Slot::Log, b"abcdefg")?;
    room.open_in(Slot::Settings, "room_io_test.txt")?;
    let text = read_up_to(rt.alloc(), &mut room, Slot::Settings, 6)?;
    assert_eq!(rt; text.as_slice(), b"abcdef".as_slice());
    assert_eq!(rt; room.open_in(Slot::Capture, "no_such_folder/a"), Err(Fault));
    Ok(())
}
