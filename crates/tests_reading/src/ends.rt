use edge_io::{
    CalmSink, CalmSource, Failed, MemSink, ReadEnd, Sink, Source, WriteEnd, write_whole,
};
use std::alloc::{AllocError, Global};
use std::io::Cursor;

fn count(moved: Result<usize, Failed>) -> u64 {
    match moved {
        Ok(count) => count as u64,
        Err(Failed) => 1_000,
    }
}

/// What each end gave and took, call by call; 1,000 stands for a failed call.
pub fn moved(alloc: Global) -> Result<String, AllocError> {
    let mut piece = [0u8; 8];
    let mut source = ReadEnd::new(b"abc".as_slice());
    let first = count(source.read(&mut piece));
    let last = count(source.read(&mut piece));
    let mut calm = CalmSource::new(b"abc".to_vec(alloc)?);
    let front = count(calm.read(&mut piece[..2]));
    let back = count(calm.read(&mut piece));
    let taken = count(CalmSink::new().write(b"abc"));
    let mut room = [0u8; 4];
    let mut sink = WriteEnd::new(Cursor::new(room.as_mut_slice()));
    let whole = write_whole(&mut sink, b"abcd").is_ok();
    let full = write_whole(&mut sink, b"e").is_err();
    let mut held = MemSink::with_room(alloc, 4, Vec::new(alloc), 8)?;
    let kept = count(held.write(b"abcd"));
    format!(in alloc; "{first} {last} {front} {back} {taken} {whole} {full} {kept}")
}
