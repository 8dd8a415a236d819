//! Copies of what keeps octets in memory: each begins where the first one was, and goes on by itself.
use crate::streams::{draws, only_call, reads, writes};
use asn1_core::{VecWriter, Writer};
use octet_core::{DrawnBytes, Failed, Items, MemorySink, MemorySource, Octets, Sink, Source};
use std::alloc::Global;
use std::process::Abort;

/// The octets 1 to 3.
fn one_to_three(rt: &impl Abort, alloc: Global) -> Octets {
    Octets::from_slice(alloc, &[1, 2, 3]).expect(rt, "memory")
}

#[test]
fn a_draw_is_copied(rt: HostRuntime) {
    let alloc = rt.alloc();
    let mut draw = DrawnBytes::new(one_to_three(&rt, alloc));
    assert!(rt; draws(&mut draw, &[1]));
    let mut copy = draw.try_clone(alloc).expect(&rt, "memory");
    assert!(rt; draws(&mut copy, &[2, 3]) && draws(&mut draw, &[2, 3]));
}

/// A source of three octets, one at a read, whose third read fails.
fn source(rt: &impl Abort, alloc: Global) -> MemorySource {
    let failing = only_call(alloc, 2).expect(rt, "memory");
    MemorySource::new(one_to_three(rt, alloc), 1, failing)
}

/// Whether the second octet of it is read next, and the third read fails.
fn reads_the_second(source: &mut MemorySource) -> bool {
    reads(source, 1, 1, [2, 0, 0, 0]) && source.read(&mut [0u8; 1]) == Err(Failed)
}

#[test]
fn a_source_is_copied(rt: HostRuntime) {
    let alloc = rt.alloc();
    let mut source = source(&rt, alloc);
    assert!(rt; reads(&mut source, 2, 1, [1, 0, 0, 0]));
    let mut copy = source.try_clone(alloc).expect(&rt, "memory");
    assert!(rt; reads_the_second(&mut copy));
}

/// A sink that takes three octets.
fn sink(rt: &impl Abort, alloc: Global) -> MemorySink {
    MemorySink::new(alloc, 3, Items::new(alloc)).expect(rt, "memory")
}

/// Whether these octets were written.
fn has_written(sink: &MemorySink, octets: &[u8]) -> bool {
    sink.octets() == octets
}

// the copy takes one more
#[test]
fn a_sink_is_copied(rt: HostRuntime) {
    let alloc = rt.alloc();
    let mut sink = sink(&rt, alloc);
    assert!(rt; writes(&mut sink, &[1, 2], 2));
    let mut copy = sink.try_clone(alloc).expect(&rt, "memory");
    assert!(rt;
        writes(&mut copy, &[3, 4], 1)
            && has_written(&copy, &[1, 2, 3])
            && has_written(&sink, &[1, 2])
    );
}

#[test]
fn a_writer_is_copied(rt: HostRuntime) {
    let mut writer = VecWriter::new(rt.alloc());
    assert!(rt; writer.write(&[5]).is_ok());
    let mut copy = writer.try_clone(rt.alloc()).expect(&rt, "memory");
    assert!(rt; copy.write(&[0]).is_ok());
    let written = copy.into_octets();
    assert!(rt; written.as_slice() == &[5, 0][..] && writer.into_octets().as_slice() == &[5][..]);
}
