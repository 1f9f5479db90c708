//! Calls on a builder.

use std::alloc::{AllocError, Global};
use std::test::Fail;
use tt_code::Frame;
use tt_family::Builder;
use tt_test_fixtures::families::{CALL, add, join, state_of};
use tt_test_fixtures::heap::Heap;
use tt_test_fixtures::trials::{Told, Trial, assert_refused, told_of};

/// A call on a builder.
#[derive(Clone, Copy, Debug)]
enum Call {
    /// A context is added.
    Add,
    /// A state is joined where there is none.
    Join,
    /// The builder becomes a certificate.
    Finish,
}

/// A call on a builder with this many contexts and states.
#[derive(Drop)]
struct OnBuilder {
    call: Call,
    size: u32,
}

/// Returns a builder with this many contexts and states, which aren't in the order of a
/// certificate.
fn filled(alloc: Global, size: u32) -> Option<Builder> {
    let mut builder = Builder::new(alloc);
    for less in 0..size {
        let call = 90u32.saturating_sub(less);
        add(&mut builder, 0, Frame { call, ..CALL }).ok()?;
        let state = state_of(alloc, &[(0, 3)], &[1, 2]).ok()?;
        join(&mut builder, 0, call, &state).ok()?;
    }
    Some(builder)
}

impl Trial for OnBuilder {
    fn told(&self, heap: &mut Heap) -> Told {
        let Some(mut builder) = filled(heap.alloc, self.size) else {
            return Told::Wrong;
        };
        let Ok(state) = state_of(heap.alloc, &[(0, 3)], &[5]) else {
            return Told::Wrong;
        };
        heap.take_room();
        let told = match self.call {
            Call::Add => told_of(add(&mut builder, 0, Frame { call: 5, ..CALL })),
            Call::Join => told_of(join(&mut builder, 0, 5, &state)),
            Call::Finish => told_of(builder.finish().map_err(|_| AllocError)),
        };
        heap.give_back();
        told
    }
}

/// Both are numbers of contexts and states at which the lists of a builder have to grow.
#[test]
fn calls_on_builders(rt: HostRuntime) -> Result<(), Fail> {
    let mut heap = Heap::new(rt.alloc());
    for call in [Call::Add, Call::Join, Call::Finish] {
        for size in [4, 8] {
            let name = format!(in rt.alloc(); "{call:?} with {size}")?;
            assert_refused(&rt, &mut heap, &name, &OnBuilder { call, size })?;
        }
    }
    Ok(())
}
