//! Calls on whole fonts and on their certificates.

use crate::PROGRAMS;
use hintcheck_certificates::{check_font, find_font, upgrade};
use hintcheck_fonts::{Request, bare, bare_symbolic, verdict, verdict_symbolic};
use hintcheck_needs::{Asked, needs_in};
use std::io;
use std::test::Fail;
use tt_family::Budget;
use tt_font::Font;
use tt_stream::{Bytes, Counted};
use tt_test_fixtures::fonts::{MAXP, font_of, square};
use tt_test_fixtures::heap::Heap;
use tt_test_fixtures::programs::POPPING;
use tt_test_fixtures::trials::{Told, Trial, assert_refused, told_of};

/// A glyph that is made of the first one twice: 8 points and 4 phantom points, of which point 11 is
/// moved.
const TWICE: [u8; 27] = [
    0xFF, 0xFF, 0, 0, 0, 0, 0, 0, 0, 0, 0, 0x20, 0, 0, 0, 0, 1, 0, 0, 0, 0, 0, 0, 3, 0xB0, 0x0B,
    0x2E,
];

/// A call on a font.
#[derive(Clone, Copy, Debug)]
enum Call {
    Read,
    Verdict,
    VerdictSymbolic,
    Needs,
    CheckFont,
    FindFont,
    Upgrade,
    Bare,
    BareSymbolic,
}

/// The calls on a font.
const CALLS: [Call; 9] = [
    Call::Read,
    Call::Verdict,
    Call::VerdictSymbolic,
    Call::Needs,
    Call::CheckFont,
    Call::FindFont,
    Call::Upgrade,
    Call::Bare,
    Call::BareSymbolic,
];

/// A call on a font, on its certificate, or on the program of its first glyph.
#[derive(Drop)]
struct OnFont<'a> {
    call: Call,
    font: &'a [u8],
    certificate: &'a [u8],
    glyph: &'a [u8],
}

impl Trial for OnFont<'_> {
    fn told(&self, heap: &mut Heap) -> Told {
        let alloc = heap.alloc;
        let mut source = Bytes::new(self.certificate);
        let mut sink = Counted::new(io::sink());
        heap.take_room();
        let told = match self.call {
            Call::Read => told_of(Font::read(alloc, self.font)),
            Call::Verdict => told_of(verdict(alloc, self.font)),
            Call::VerdictSymbolic => told_of(verdict_symbolic(alloc, self.font)),
            Call::Needs => {
                let mut points = Budget::unlimited();
                let asked = Asked::All;
                told_of(needs_in(alloc, self.font, Request::Strict, asked, &mut points))
            }
            Call::CheckFont => told_of(check_font(alloc, self.font, &mut source)),
            Call::FindFont => told_of(find_font(alloc, self.font, &mut sink)),
            Call::Upgrade => told_of(upgrade(alloc, &mut source, &mut sink)),
            Call::Bare if self.glyph.len() < 100 => {
                told_of(bare(alloc, &MAXP, 10, 4, 1, self.glyph))
            }
            Call::BareSymbolic if self.glyph.len() < 100 => {
                told_of(bare_symbolic(alloc, &MAXP, 10, 4, 1, self.glyph))
            }
            Call::Bare | Call::BareSymbolic => Told::Wrong,
        };
        heap.give_back();
        told
    }
}

/// Each font has a glyph with a program, and one that is made of it twice.
#[test]
fn calls_on_fonts(rt: HostRuntime) -> Result<(), Fail> {
    let mut heap = Heap::new(rt.alloc());
    for (program, glyph) in PROGRAMS {
        let simple = square(rt.alloc(), glyph)?;
        let font = font_of(rt.alloc(), &POPPING, &[], &[&simple, &TWICE])?;
        let mut sink = Counted::new(Vec::new(rt.alloc()));
        find_font(rt.alloc(), &font, &mut sink)?;
        let certificate = sink.into_inner();
        for call in CALLS {
            let name = format!(in rt.alloc(); "{call:?} on {program}")?;
            let trial = OnFont {
                call,
                font: &font,
                certificate: &certificate,
                glyph,
            };
            assert_refused(&rt, &mut heap, &name, &trial)?;
        }
    }
    Ok(())
}
