//! Calls on one program, and on the section of a certificate with its family.

ghost use Rattle.tt_setting.specs.Entries.{Ascends};
ghost use Rattle.tt_setting.specs.Settings.{setting_of};
ghost use Rattle.tt_abs.specs.StateFlow.{FunctionsFit};

use crate::PROGRAMS;
use std::alloc::Global;
use std::io;
use std::test::Fail;
use tt_abs::Cell::Known;
use tt_abs::{Point, Setting, State, transfer};
use tt_cert::{NEWEST_FORM, Name, decode, encode};
use tt_code::Program;
use tt_family::{Budget, check, check_full};
use tt_find::{Explored, Finder, Found, ListedStates, explore, find};
use tt_stream::{Bytes, Counted};
use tt_test_fixtures::families::state_of;
use tt_test_fixtures::heap::Heap;
use tt_test_fixtures::programs::{GLYPH, LIMITS, POPPING, cut};
use tt_test_fixtures::trials::{Told, Trial, assert_refused, told_of};

/// A call on a program.
#[derive(Clone, Copy, Debug)]
enum Call {
    Cut,
    Copy,
    Transfer,
    Check,
    CheckFull,
    Find,
    Decode,
    Encode,
}

/// The calls on a program.
const CALLS: [Call; 8] = [
    Call::Cut,
    Call::Copy,
    Call::Transfer,
    Call::Check,
    Call::CheckFull,
    Call::Find,
    Call::Decode,
    Call::Encode,
];

/// A call on the program of a glyph.
#[derive(Drop)]
struct OnProgram<'a> {
    call: Call,
    glyph: &'a [u8],
}

/// What the calls on a program are made on.
#[derive(Drop)]
struct Inputs {
    /// A state each of whose parts has memory of its own: more cells than fit without, a function,
    /// and a storage cell.
    large: State,
    /// The family that a search finds, and one with a state at each point.
    found: Found,
    full: Explored,
    /// The section of the family that is found.
    section: Vec<u8>,
}

/// Returns what the calls in this setting are made on; nothing where memory runs out.
fn inputs_of(alloc: Global, setting: &Setting<'_>) -> Option<Inputs>
    requires ascends { Ascends setting.now.start.now }
    requires fits { FunctionsFit (setting_of setting.now) setting.now.start.now }
{
    let mut large = state_of(alloc, &[(0, 3)], &[70_000; 40]).ok()?;
    large.set_storage(2, Known(7)).ok()?;
    let mut finder = Finder::new(alloc);
    finder
        .find(alloc, setting, ListedStates::Kept, &mut Budget::unlimited())
        .ok()?;
    let found = finder.into_found()?;
    let mut sink = Counted::new(Vec::new(alloc));
    encode(alloc, Name::Glyph(0), &found.certificate, &mut sink).ok()?;
    Some(Inputs {
        large,
        found,
        full: explore(alloc, setting, &mut Budget::unlimited()).ok()?,
        section: sink.into_inner(),
    })
}

/// Returns what a call tells in the setting of the program.
fn told_in(heap: &mut Heap, trial: &OnProgram<'_>, setting: &Setting<'_>) -> Told
    requires ascends { Ascends setting.now.start.now }
    requires fits { FunctionsFit (setting_of setting.now) setting.now.start.now }
{
    let alloc = heap.alloc;
    let Some(inputs) = inputs_of(alloc, setting) else {
        return Told::Wrong;
    };
    let Ok(state) = state_of(alloc, &[(0, 3)], &[1, 2]) else {
        return Told::Wrong;
    };
    let point = Point {
        frames: &[],
        offset: 0,
    };
    let family = &inputs.found.certificate;
    let mut source = Bytes::new(&inputs.section);
    let mut sink = Counted::new(io::sink());
    heap.take_room();
    let told = match trial.call {
        Call::Cut if trial.glyph.len() < 100 => told_of(Program::cut(alloc, trial.glyph)),
        Call::Copy => told_of(inputs.large.copy()),
        Call::Transfer if setting.starts(&point, 0) => told_of(transfer(setting, &point, &state)),
        Call::Check => told_of(check(alloc, setting, family)),
        Call::CheckFull => told_of(check_full(alloc, setting, &inputs.full.found.certificate)),
        Call::Find => told_of(find(alloc, setting)),
        Call::Decode => told_of(decode(alloc, &mut source, 0, NEWEST_FORM)),
        Call::Encode => told_of(encode(alloc, Name::Glyph(0), family, &mut sink)),
        _ => Told::Wrong,
    };
    heap.give_back();
    told
}

impl Trial for OnProgram<'_> {
    fn told(&self, heap: &mut Heap) -> Told {
        let (Some(main), Some(font)) = (cut(heap.alloc, self.glyph), cut(heap.alloc, &POPPING))
        else {
            return Told::Wrong;
        };
        let setting = Setting {
            limits: LIMITS,
            cvt: 10,
            kind: GLYPH,
            main: &main,
            font: &font,
            prep: &font,
            start: &[(0, 3)],
        };
        told_in(heap, self, &setting)
    }
}

#[test]
fn calls_on_programs(rt: HostRuntime) -> Result<(), Fail> {
    let mut heap = Heap::new(rt.alloc());
    for (program, glyph) in PROGRAMS {
        for call in CALLS {
            let name = format!(in rt.alloc(); "{call:?} on {program}")?;
            assert_refused(&rt, &mut heap, &name, &OnProgram { call, glyph })?;
        }
    }
    Ok(())
}
