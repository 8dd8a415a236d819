//! Draws, sources and sinks over memory, and over streams and generators that may fail.
ghost use Rattle.std.specs.Prelude.{◌≤◌, length};

use octet_core::{
    Draw, DrawnBytes, Failed, FailingDraw, Items, MemorySink, MemorySource, Octets, ReadDraw,
    ReadSource, Sink, Source, TryRngDraw, WriteSink,
};
use rand_core::TryRng;
use std::alloc::Global;
use std::fmt;
use std::io::{self, Read, Write};

/// A draw of the octets 1 to 5.
fn one_to_five(alloc: Global) -> Result<DrawnBytes, std::alloc::AllocError> {
    Ok(DrawnBytes::new(Octets::from_slice(alloc, &[1, 2, 3, 4, 5])?))
}

/// The list of one failing call, counted from 0.
pub fn only_call(alloc: Global, call: u64) -> Result<Items<u64>, std::alloc::AllocError> {
    let mut failing = Items::new(alloc);
    failing.push(call)?;
    Ok(failing)
}

/// Whether these octets are drawn next.
pub fn draws<D: Draw>(draw: &mut D, octets: &[u8]) -> bool
    requires { length octets.now ≤ 5 }
{
    let mut buffer = [0u8; 5];
    let out = &mut buffer[..octets.len()];
    draw.fill(out).is_ok() && buffer.starts_with(octets)
}

/// Whether a draw of so many octets fails, and takes none.
fn fails<D: Draw>(draw: &mut D, len: usize) -> bool
    requires { len ≤ 5 }
{
    let mut buffer = [9u8; 5];
    draw.fill(&mut buffer[..len]) == Err(Failed) && buffer == [9u8; 5]
}

#[test]
fn drawn_bytes_come_in_order_until_too_few_are_left(rt: HostRuntime) {
    let mut draw = one_to_five(rt.alloc()).expect(&rt, "memory");
    assert!(rt;
        draws(&mut draw, &[1, 2])
            && fails(&mut draw, 4)
            && draws(&mut draw, &[3, 4, 5])
            && draws(&mut draw, &[])
            && fails(&mut draw, 2)
    );
}

/// Whether it draws one to four by two, and fails at its second call and at its last.
fn fails_second_and_at_the_end<D: Draw>(draw: &mut D) -> bool {
    draws(draw, &[1, 2]) && fails(draw, 2) && draws(draw, &[3, 4]) && fails(draw, 2)
}

#[test]
fn a_draw_fails_at_the_listed_calls_and_where_the_draw_behind_it_fails(rt: HostRuntime) {
    let inner = one_to_five(rt.alloc()).expect(&rt, "memory");
    let failing = only_call(rt.alloc(), 1).expect(&rt, "memory");
    let mut draw = FailingDraw::new(inner, failing);
    let mut copy = draw.try_clone(rt.alloc()).expect(&rt, "memory");
    assert!(rt; fails_second_and_at_the_end(&mut draw) && fails_second_and_at_the_end(&mut copy));
}

#[test]
fn the_end_of_a_reader_is_a_fault(rt: HostRuntime) {
    let octets = [1u8, 2, 3];
    let mut draw = ReadDraw::new(octets.as_slice());
    assert!(rt; draws(&mut draw, &[1, 2]) && draw.fill(&mut [0u8; 2]) == Err(Failed));
}

/// Why the fake generator fails.
#[derive(Debug, Drop)]
struct Worn;

impl fmt::Display for Worn {
    fn fmt<W: fmt::Write>(&self, f: &mut fmt::Formatter<W>) -> fmt::Result {
        f.write_str("worn")
    }
}

impl std::error::Error for Worn {}

/// A generator that gives ever the same octet, as often as it has draws left.
#[derive(Drop)]
struct FakeRng {
    octet: u8,
    draws_left: u32,
}

impl FakeRng {
    fn draw(&mut self) -> Result<u8, Worn> {
        self.draws_left = self.draws_left.checked_sub(1).ok_or(Worn)?;
        Ok(self.octet)
    }
}

impl TryRng for FakeRng {
    type Error = Worn;

    fn try_next_u32(&mut self) -> Result<u32, Worn> {
        Ok(self.draw()? as u32)
    }

    fn try_next_u64(&mut self) -> Result<u64, Worn> {
        Ok(self.draw()? as u64)
    }

    fn try_fill_bytes(&mut self, dst: &mut [u8]) -> Result<(), Worn> {
        let octet = self.draw()?;
        dst.fill(octet);
        Ok(())
    }
}

#[test]
fn a_failure_of_a_generator_is_a_fault(rt: HostRuntime) {
    let mut draw = TryRngDraw::new(FakeRng {
        octet: 7,
        draws_left: 1,
    });
    assert!(rt; draws(&mut draw, &[7, 7]) && draw.fill(&mut [0u8; 2]) == Err(Failed));
}

/// Whether a read into the first `len` of four zeros takes so many octets, and these are there then.
pub fn reads<S: Source>(source: &mut S, len: usize, count: usize, octets: [u8; 4]) -> bool
    requires { len ≤ 4 }
{
    let mut buffer = [0u8; 4];
    source.read(&mut buffer[..len]) == Ok(count) && buffer == octets
}

/// Whether so many octets of the piece are written.
pub fn writes<S: Sink>(sink: &mut S, piece: &[u8], count: usize) -> bool {
    sink.write(piece) == Ok(count)
}

/// Whether a write fails.
fn fails_to_write<S: Sink>(sink: &mut S) -> bool {
    sink.write(&[4]) == Err(Failed)
}

#[test]
fn memory_is_read_in_pieces(rt: HostRuntime) {
    let failing = only_call(rt.alloc(), 1).expect(&rt, "memory");
    let octets = Octets::from_slice(rt.alloc(), &[1, 2, 3]).expect(&rt, "memory");
    let mut source = MemorySource::new(octets, 2, failing);
    assert!(rt;
        reads(&mut source, 4, 2, [1, 2, 0, 0])
            && source.read(&mut [0u8; 4]) == Err(Failed)
            && reads(&mut source, 4, 1, [3, 0, 0, 0])
            && reads(&mut source, 4, 0, [0; 4])
    );
}

#[test]
fn memory_is_written_in_pieces(rt: HostRuntime) {
    let never = Items::new(rt.alloc());
    let mut sink = MemorySink::new(rt.alloc(), 3, never).expect(&rt, "memory");
    assert!(rt;
        writes(&mut sink, &[1, 2], 2) && writes(&mut sink, &[3, 4], 1) && fails_to_write(&mut sink)
    );
    assert!(rt; sink.octets() == &[1, 2, 3][..]);
}

/// A writer that takes at most two octets at a call, and fails at its third call alone.
#[derive(Drop)]
struct TiredWriter {
    calls: u32,
}

impl Write for TiredWriter {
    fn write(&mut self, buf: &[u8]) -> io::Result<usize> {
        self.calls = self.calls.saturating_add(1);
        if self.calls == 3 {
            return Err(io::Error::from(io::ErrorKind::BrokenPipe));
        }
        Ok(buf.len().min(2))
    }

    fn flush(&mut self) -> io::Result<()> {
        Ok(())
    }
}

#[test]
fn a_stream_is_read(rt: HostRuntime) {
    let octets = [1u8, 2, 3];
    let mut source = ReadSource::new(octets.as_slice());
    assert!(rt;
        reads(&mut source, 2, 2, [1, 2, 0, 0])
            && reads(&mut source, 2, 1, [3, 0, 0, 0])
            && reads(&mut source, 2, 0, [0; 4])
    );
}

#[test]
fn a_stream_is_written(rt: HostRuntime) {
    let mut sink = WriteSink::new(TiredWriter { calls: 0 });
    assert!(rt;
        writes(&mut sink, &[1, 2, 3], 2)
            && writes(&mut sink, &[3], 1)
            && fails_to_write(&mut sink)
            && writes(&mut sink, &[3], 1)
    );
}

/// A reader whose first read is interrupted. Each later one gives the number of the reads so far.
#[derive(Drop)]
struct InterruptedReader {
    reads: u8,
}

impl Read for InterruptedReader {
    fn read(&mut self, buf: &mut [u8]) -> io::Result<usize> {
        self.reads = self.reads.saturating_add(1);
        if self.reads == 1 {
            return Err(io::Error::from(io::ErrorKind::Interrupted));
        }
        buf.fill(self.reads);
        Ok(buf.len())
    }
}

#[test]
fn a_draw_and_a_source_end_at_the_first_error_of_their_reader(rt: HostRuntime) {
    // What comes after the error is from the second read: none was made in between.
    let mut draw = ReadDraw::new(InterruptedReader { reads: 0 });
    assert!(rt; draw.fill(&mut [0u8; 2]) == Err(Failed) && draws(&mut draw, &[2, 2]));
    let mut source = ReadSource::new(InterruptedReader { reads: 0 });
    assert!(rt;
        source.read(&mut [0u8; 4]) == Err(Failed) && reads(&mut source, 2, 2, [2, 2, 0, 0])
    );
}
