// Files and streams: whole files and texts over devices that give and take little, and that fail.
use std::alloc::Global;
use std::fs;
use std::rt::Files;
use vb_outer::{
    DiskShelf, Failed, FileFault, MemFile, MemShelf, MemSink, Shelf, StdSink, read_file, write_all,
};

/// A file, `note`, that says `hello`.
fn note(alloc: Global) -> Option<MemFile> {
    let name = b"note".to_vec(alloc).ok()?;
    let bytes = b"hello".to_vec(alloc).ok()?;
    Some(MemFile { name, bytes })
}

/// A shelf with the file `note` alone, which gives three bytes a call.
fn note_shelf(alloc: Global) -> Option<MemShelf> {
    let files = vec![in alloc; note(alloc)?].ok()?;
    Some(MemShelf::make(files, Vec::new(alloc), 3))
}

/// Whether the file `note` is read as it should be.
fn is_note<H: Shelf>(alloc: Global, shelf: &mut H) -> bool {
    match read_file(alloc, shelf, "note", 5) {
        Ok(bytes) => bytes.as_slice() == b"hello".as_slice(),
        Err(_) => false,
    }
}

/// Whether `note` is read in two pieces.
fn reads_in_pieces(shelf: &mut MemShelf) -> bool {
    let mut buf = [0; 4];
    let counts = [shelf.read(&mut buf), shelf.read(&mut buf)];
    counts == [Ok(3), Ok(2)] && buf == *b"lol\0"
}

/// Whether a missing file fails, and what is read behind it.
fn reads_behind_a_fault(alloc: Global) -> Option<bool> {
    let mut shelf = note_shelf(alloc)?;
    let missing = read_file(alloc, &mut shelf, "nota", 5).err();
    let after = shelf.read(&mut [0; 4]);
    let is_begun = shelf.begin("note").is_ok();
    let is_read = reads_in_pieces(&mut shelf);
    Some(missing == Some(FileFault::Failed) && after == Ok(0) && is_begun && is_read)
}

#[test]
fn a_missing_file_fails_and_the_next_is_read(rt: HostRuntime) {
    assert!(rt; reads_behind_a_fault(rt.alloc()) == Some(true));
}

/// Whether texts stand one behind another, but for one whose write failed.
fn writes_in_turn(alloc: Global) -> Option<bool> {
    let failing = vec![in alloc; 4].ok()?;
    let mut sink = MemSink::make(alloc, failing, 2).ok()?;
    let ends = [
        write_all(&mut sink, b"one"),
        write_all(&mut sink, b""),
        write_all(&mut sink, b"two"),
        write_all(&mut sink, b"!"),
    ];
    Some(ends == [Ok(()), Ok(()), Err(Failed), Ok(())] && sink.written() == b"onetw!".as_slice())
}

#[test]
fn texts_are_written_one_after_another(rt: HostRuntime) {
    assert!(rt; writes_in_turn(rt.alloc()) == Some(true));
}

/// How many bytes of a file come within the limit, or why none do.
fn count<H: Shelf>(
    alloc: Global,
    shelf: &mut H,
    name: &str,
    limit: usize,
) -> Result<usize, FileFault> {
    Ok(read_file(alloc, shelf, name, limit)?.len())
}

/// Whether files are read within their limits, one behind a missing one, and nothing is read with no file begun.
fn reads_within_limits<H: Shelf>(alloc: Global, disk: &mut H) -> bool {
    let before = disk.read(&mut [0; 4]);
    let counts = [
        count(alloc, disk, "long", 70_001),
        count(alloc, disk, "long", 70_000),
        count(alloc, disk, "none", 5),
    ];
    let after = disk.read(&mut [0; 4]);
    let wanted = [Ok(70_001), Err(FileFault::Long), Err(FileFault::Failed)];
    let is_note = is_note(alloc, disk);
    counts == wanted && [before, after] == [Ok(0), Ok(0)] && is_note
}

/// Writes a file, `long`. It has more bytes than are asked for at once.
fn write_long<R: Files>(rt: &R, alloc: Global) -> Option<()> {
    let text: Vec<u8> = vec![in alloc; b'x'; 70_001].ok()?;
    fs::write(rt, "long", text.as_slice()).ok()
}

/// Writes a file, `note`, that says `hello`.
fn write_note<R: Files>(rt: &R) -> Option<()> {
    fs::write(rt, "note", b"hello".as_slice()).ok()
}

#[test]
fn a_file_on_the_disk_is_read(rt: HostRuntime) {
    assert!(rt; write_long(&rt, rt.alloc()).is_some());
    assert!(rt; write_note(&rt).is_some());
    assert!(rt; reads_within_limits(rt.alloc(), &mut DiskShelf::make(rt)));
}

/// Whether a text is written to both streams.
fn writes_to_streams(rt: HostRuntime) -> bool {
    let out = write_all(&mut StdSink::make(rt.stdout()), b"out\n");
    let err = write_all(&mut StdSink::make(rt.stderr()), b"err\n");
    [out, err] == [Ok(()), Ok(())]
}

/// Whether a full writer takes nothing more.
fn fills_a_writer() -> bool {
    let mut room = [0; 3];
    let full = write_all(&mut StdSink::make(room.as_mut_slice()), b"outer");
    full == Err(Failed) && room == *b"out"
}

#[test]
fn a_stream_is_written(rt: HostRuntime) {
    assert!(rt; writes_to_streams(rt));
    assert!(rt; fills_a_writer());
}
