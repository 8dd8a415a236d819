//! Reads, writes and draws that fail in turn: what is returned, and what was written before.
ghost use Rattle.std.specs.Prelude.{◌≡◌, ◌<◌};

use asn1_core::{Items, Octets};
use frame::write_lines;
use mac_modes::{DrawnBytes, FailingDraw};
use std::alloc::{AllocError, Global};
use std::marker::Brand;
use std::sync::ledger::{Blank, Ledger};
use steps::Steps;
use transfer::{MemorySink, MemorySource, Source, Status, run};

/// A number that no read, no write and no draw has here.
const NEVER: u64 = 1000;

/// A run over memory, in pieces of 100 octets and under these drawn octets, where the read, the write and the draw of these
/// numbers fail, and what it has to return and to write.
#[derive(Clone, Copy)]
struct Case<'a> {
    words: &'a str,
    input: &'a str,
    drawn: &'a [u8],
    failing_read: u64,
    failing_write: u64,
    failing_draw: u64,
    status: Status,
    written: &'a str,
}

/// What a run works on.
#[derive(Drop)]
struct Streams {
    words: Vec<String>,
    source: MemorySource,
    sink: MemorySink,
    draw: FailingDraw<DrawnBytes>,
}

/// The words of a line.
fn words_of(alloc: Global, line: &str) -> Result<Vec<String>, AllocError> {
    let mut words = Vec::new(alloc);
    for word in line.split(' ') {
        words.push(String::from_str(alloc, word)?)?;
    }
    Ok(words)
}

/// A list of one number.
fn list_of(alloc: Global, number: u64) -> Result<Items<u64>, AllocError> {
    let mut numbers = Items::new(alloc);
    numbers.push(number)?;
    Ok(numbers)
}

/// The input of a case.
fn source_of(alloc: Global, case: &Case<'_>) -> Result<MemorySource, AllocError> {
    let failing = list_of(alloc, case.failing_read)?;
    let input = Octets::from_slice(alloc, case.input.as_bytes())?;
    Ok(MemorySource::new(input, 100, failing))
}

/// Its draw.
fn draw_of(alloc: Global, case: &Case<'_>) -> Result<FailingDraw<DrawnBytes>, AllocError> {
    let failing = list_of(alloc, case.failing_draw)?;
    let drawn = Octets::from_slice(alloc, case.drawn)?;
    Ok(FailingDraw::new(DrawnBytes::new(drawn), failing))
}

/// All that it works on.
fn streams_of(alloc: Global, case: &Case<'_>) -> Result<Streams, AllocError> {
    let words = words_of(alloc, case.words)?;
    let source = source_of(alloc, case)?;
    let draw = draw_of(alloc, case)?;
    let sink = MemorySink::new(alloc, 4000, list_of(alloc, case.failing_write)?)?;
    Ok(Streams {
        words,
        source,
        sink,
        draw,
    })
}

/// Whether a run of the case answers and writes what it has to.
fn runs<L: Ledger>(alloc: Global, case: &Case<'_>, streams: &mut Streams, blank: Blank) -> bool
    requires name { blank.name ≡ L.name }
    requires parts { blank.parts ≡ L.parts }
    requires some { 0 < blank.parts }
{
    let mut steps = Steps::<L>::open(blank);
    let status = run(
        alloc,
        streams.words.as_slice(),
        &mut streams.source,
        &mut streams.draw,
        &mut streams.sink,
        &mut steps,
    );
    status == case.status && streams.sink.octets() == case.written.as_bytes()
}

/// The same over streams of its own.
fn holds(alloc: Global, case: &Case<'_>) -> bool {
    match streams_of(alloc, case) {
        Ok(mut streams) => runs::<Brand>(alloc, case, &mut streams, Blank::new(1)),
        Err(_) => false,
    }
}

/// The store of three counts of 2,048 in `tests/vectors/transferred_keys.txt`, with its second line, and what is written
/// for it. It is read in eight pieces, and the ninth read finds the end.
const WHOLE: Case<'static> = Case {
    words: "transfer changeit hunter42 2048 14336",
    input: "308201630201033082012906092a864886f70d010701a082011a048201163082011230819106092a864886f70d010706a08183308180020100307b06092a864886f70d010701301c060a2a864886f70d010c0103300e040808090a0b0c0d0e0f02020800805046b78fa66d074d21451e4e23b67adab8c7bcc81bb38a4959e53f97ed83fedc13779e81fbfa400530bd1441d34195453ae781680f1e1302e178de3a1f99f044e475cfb989483284a72525d42087223dd6307c06092a864886f70d010701a06f046d306b3069060b2a864886f70d010c0a0102a05a3058301c060a2a864886f70d010c0103300e04080001020304050607020208000438e07a5f5cffab79cf663379627f6a10410d338d32a5560ef7df4203a16ece276808561813d9460b23b72578552daeea2fd8893c18cbe9f84330313021300906052b0e03021a05000414e7b41c3b4b196e7f86763c14571e90288dcb8cc60408101112131415161702020800\na0a1a2a3a4a5a6a7a8a9aaabacadaeafb0b1b2b3b4b5b6b7b8b9babbbcbdbebf\n",
    drawn: &[],
    failing_read: NEVER,
    failing_write: NEVER,
    failing_draw: NEVER,
    status: Status::Done,
    written: "cert 3000\ncert 30020500\nkey 3081a3305f06092a864886f70d01050d3052303106092a864886f70d01050c30240410b0b1b2b3b4b5b6b7b8b9babbbcbdbebf02020800300c06082a864886f70d02090500301d060960864801650304012a0410a0a1a2a3a4a5a6a7a8a9aaabacadaeaf04401dc96642bbb6dcecdabd8b969bd14f851c57ef656de63d9f82e6494907dbc37a6c4b082cb41c3ea195c0db2e2fdd4a0fef142e7c23545d42fad5d1b81aceb9bf\n",
};

/// The piece of a text of that number, counted from 0: 100 octets of it, or what is left.
fn piece_of(text: &[u8], number: usize) -> &[u8] {
    let start = number.saturating_mul(100).min(text.len());
    let end = start.saturating_add(100).min(text.len());
    &text[start..end]
}

/// Whether the next read gives these octets.
fn gives<S: Source>(source: &mut S, octets: &[u8]) -> bool {
    let mut buffer = [0u8; 100];
    match source.read(&mut buffer) {
        Ok(count) => &buffer[..count] == octets,
        Err(_) => false,
    }
}

/// Whether a run ends at its read of that number, which fails: the next read gives the piece that this one did not take.
fn ends_at_read(alloc: Global, number: usize) -> bool {
    let case = Case {
        failing_read: number as u64,
        status: Status::ReadFault,
        written: "error: ReadFault\n",
        ..WHOLE
    };
    let Ok(mut streams) = streams_of(alloc, &case) else {
        return false;
    };
    runs::<Brand>(alloc, &case, &mut streams, Blank::new(1))
        && gives(&mut streams.source, piece_of(case.input.as_bytes(), number))
}

#[test]
fn each_failed_read_is_named_and_is_the_last(rt: HostRuntime) {
    for number in 0..9 {
        assert!(rt; ends_at_read(rt.alloc(), number));
    }
}

#[test]
fn a_read_behind_the_end_is_not_made(rt: HostRuntime) {
    let case = Case {
        failing_read: 9,
        ..WHOLE
    };
    assert!(rt; holds(rt.alloc(), &case));
}

/// What was written before each write of a line.
static WRITTEN_BEFORE: [(u64, &str); 3] = [
    (0, ""),
    (1, "cert 3000\n"),
    (2, "cert 3000\ncert 30020500\n"),
];

#[test]
fn a_failed_write_leaves_the_lines_before_it(rt: HostRuntime) {
    for (failing_write, written) in &WRITTEN_BEFORE {
        let case = Case {
            failing_write: *failing_write,
            status: Status::WriteFault,
            written,
            ..WHOLE
        };
        assert!(rt; holds(rt.alloc(), &case));
    }
}

#[test]
fn a_failed_write_of_an_error_leaves_nothing(rt: HostRuntime) {
    let case = Case {
        input: "3",
        failing_write: 0,
        status: Status::WriteFault,
        written: "",
        ..WHOLE
    };
    assert!(rt; holds(rt.alloc(), &case));
}

/// A store of one key under the password `p`, on one line, and what is written for it under the octets 00 to 1f.
const DRAWN: Case<'static> = Case {
    words: "transfer p q 1 9",
    input: "3081c702010330818f06092a864886f70d010701a08181047f307d307b06092a864886f70d010701a06e046c306a3068060b2a864886f70d010c0a0102a0593057301b060a2a864886f70d010c0103300d0408000102030405060702010104389346ccf77dd8eebd5c8886bb647dcd71ec6e31aaf7ffc7aa7cdd23a7f01d926ff4070685a09437c0b16ce6e16dc46774c0b4852b78625feb30303021300906052b0e03021a050004146b9d3fcea78a22a4ce7349106573ef9b11e7b88c04081011121314151617020101",
    drawn: &[
        0, 1, 2, 3, 4, 5, 6, 7, 8, 9, 10, 11, 12, 13, 14, 15, 16, 17, 18, 19, 20, 21, 22, 23, 24,
        25, 26, 27, 28, 29, 30, 31,
    ],
    failing_read: NEVER,
    failing_write: NEVER,
    failing_draw: NEVER,
    status: Status::Done,
    written: "key 3081a2305e06092a864886f70d01050d3051303006092a864886f70d01050c30230410101112131415161718191a1b1c1d1e1f020101300c06082a864886f70d02090500301d060960864801650304012a0410000102030405060708090a0b0c0d0e0f0440eaddebce317eb16b308cb373f4460c5d57b8a59b7dfc42f1c5647229cff7f0ca8758d424ef643607914fcec903fa6539d9064e1e81d2f902d27dbe4aa6a3e326\n",
};

#[test]
fn each_failed_draw_is_named(rt: HostRuntime) {
    for failing_draw in 0..2 {
        let case = Case {
            failing_draw,
            status: Status::Rng,
            written: "error: Rng\n",
            ..DRAWN
        };
        assert!(rt; holds(rt.alloc(), &case));
    }
}

#[test]
fn a_key_takes_two_fills_of_the_draw(rt: HostRuntime) {
    let case = Case {
        failing_draw: 2,
        ..DRAWN
    };
    assert!(rt; holds(rt.alloc(), &case));
}

#[test]
fn without_a_second_line_the_draw_is_used(rt: HostRuntime) {
    assert!(rt; holds(rt.alloc(), &DRAWN));
}

/// A line of 100,000 octets, and one of a single octet.
fn long_and_short_line(alloc: Global) -> Result<Items<Octets>, AllocError> {
    let mut lines = Items::new(alloc);
    lines.push(Octets::from_vec(vec![in alloc; b'a'; 100_000]?))?;
    lines.push(Octets::from_slice(alloc, b"b")?)?;
    Ok(lines)
}

/// Whether the long line is written where the second write fails, and nothing else.
fn is_long_line_written(sink: &mut MemorySink, lines: &[Octets]) -> bool {
    write_lines(sink, lines).is_err() && sink.octets().len() == 100_000
}

/// Whether it is so over memory.
fn is_written_in_one(alloc: Global) -> Result<bool, AllocError> {
    let lines = long_and_short_line(alloc)?;
    let mut sink = MemorySink::new(alloc, 200_000, list_of(alloc, 1)?)?;
    Ok(is_long_line_written(&mut sink, lines.as_slice()))
}

#[test]
fn a_long_line_is_offered_in_one_write(rt: HostRuntime) {
    assert!(rt; matches!(is_written_in_one(rt.alloc()), Ok(true)));
}
