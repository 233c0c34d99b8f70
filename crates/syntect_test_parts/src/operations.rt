//! Regions, hooks, scopes that are cleared, and what writers keep that fail.
use crate::below::scope::repository::ScopeRepository;
use crate::below::scope::stack::{BasicScopeStackOp, ClearAmount, ScopeStack, ScopeStackOp};
use crate::found::{equal, holds};
use std::io::{self, ErrorKind, Write};
use std::process::Abort;
use syntect_operations::print::debug_print_ops;
use syntect_operations::ranges::ScopeRegionIterator;

#[test]
fn regions_with_the_operation_before_them(rt: HostRuntime) {
    let mut repository = ScopeRepository::new(rt.alloc());
    let scope = repository.build("a").expect(&rt, "a scope");
    let ops = [(1, ScopeStackOp::Push(scope))];
    let mut regions = ScopeRegionIterator::new(&ops, "ab");
    holds(&rt, regions.next() == Some(("a", ScopeStackOp::Noop)));
    holds(
        &rt,
        regions.next() == Some(("b", ScopeStackOp::Push(scope))),
    );
    holds(&rt, regions.next().is_none());
}

#[test]
fn a_hook_hears_of_real_pops_alone(rt: HostRuntime) {
    let mut repository = ScopeRepository::new(rt.alloc());
    let mut stack = ScopeStack::from_text(rt.alloc(), "a", &mut repository).expect(&rt, "memory");
    let mut calls = 0u8;
    stack
        .apply_with_hook(&ScopeStackOp::Pop(3), |what, left| {
            if what == BasicScopeStackOp::Pop && left.is_empty() && calls < 9 {
                calls += 1;
            }
        })
        .expect(&rt, "memory");
    equal(&rt, calls, 1);
}

#[test]
fn cleared_scopes_come_back(rt: HostRuntime) {
    let mut repository = ScopeRepository::new(rt.alloc());
    let mut stack = ScopeStack::from_text(rt.alloc(), "a b c", &mut repository).expect(
        &rt, "memory",
    );
    let scope = repository.build("d").expect(&rt, "a scope");
    stack
        .apply(&ScopeStackOp::Clear(ClearAmount::TopN(2)))
        .expect(&rt, "memory");
    stack
        .apply(&ScopeStackOp::Push(scope))
        .expect(&rt, "memory");
    let mut calls = 0u8;
    stack
        .apply_telling(
            &ScopeStackOp::Restore,
            &mut |_, _| {
                if calls < 9 {
                    calls += 1;
                }
            },
        )
        .expect(&rt, "memory");
    equal(&rt, calls, 2);
    let mut out = Vec::new(rt.alloc());
    stack
        .debug_print(&repository, &mut out)
        .expect(&rt, "memory");
    holds(&rt, out.as_slice() == b"a d b c \n".as_slice());
    let copy = repository.clone().expect(&rt, "memory");
    holds(&rt, copy.atom_str(4) == Some("d"));
}

/// A writer that takes so many bytes a call at most, and fails where it has no room left.
#[derive(Drop)]
struct Narrow {
    kept: Vec<u8>,
    room: usize,
    width: usize,
}

impl Write for Narrow {
    fn write(&mut self, buf: &[u8]) -> io::Result<usize> {
        if self.room == 0 {
            return Err(io::Error::from(ErrorKind::StorageFull));
        }
        let count = buf.len().min(self.room).min(self.width);
        self.kept.extend_from_slice(buf.split_at(count).0)?;
        self.room -= count;
        Ok(count)
    }

    fn flush(&mut self) -> io::Result<()> {
        Ok(())
    }
}

/// What is written.
#[derive(Clone, Copy)]
enum Printed {
    Scope,
    Stack,
    Operations,
}

/// Each with its text, of the stack `a.b c`.
const PRINTED: [(Printed, &str); 3] = [
    (Printed::Scope, "a.b"),
    (Printed::Stack, "a.b c \n"),
    (Printed::Operations, "ab\n ^ +a.b\n"),
];

fn print(
    printed: Printed,
    stack: &ScopeStack,
    repository: &ScopeRepository,
    out: &mut Narrow,
) -> io::Result<()> {
    let scope = stack.as_slice().first().copied().unwrap_or_default();
    match printed {
        Printed::Scope => scope.write_to(repository, out),
        Printed::Stack => stack.debug_print(repository, out),
        Printed::Operations => {
            debug_print_ops("ab", &[(1, ScopeStackOp::Push(scope))], repository, out)
        }
    }
}

/// Whether the writer keeps as much of the text as there is room for, and whether that is said.
fn keeps_its_room(
    rt: &(impl AllocGlobal + Abort),
    row: (Printed, &str),
    stack: &ScopeStack,
    repository: &ScopeRepository,
    (room, width): (usize, usize),
) -> bool {
    let (printed, text) = row;
    let mut out = Narrow {
        kept: Vec::new(rt.alloc()),
        room,
        width,
    };
    let is_written = print(printed, stack, repository, &mut out).is_ok();
    let bytes = text.as_bytes();
    let kept = out.kept.as_slice();
    is_written == (room >= bytes.len()) && kept == bytes.split_at(room.min(bytes.len())).0
}

#[test]
fn writers_without_room(rt: HostRuntime) {
    let mut repository = ScopeRepository::new(rt.alloc());
    let stack = ScopeStack::from_text(rt.alloc(), "a.b c", &mut repository).expect(&rt, "memory");
    for row in &PRINTED {
        for room in 0..20 {
            holds(
                &rt,
                keeps_its_room(&rt, *row, &stack, &repository, (room, 5)),
            );
        }
        holds(&rt, keeps_its_room(&rt, *row, &stack, &repository, (20, 1)));
    }
}
