//! A whole number that contracts alone see.

ghost use Rattle.std.specs.Prelude.{◌≡◌, ◌+◌};

use std::marker::Model;
use std::mem;
use std::mem::size_of;
use std::snapshot::Snapshot;

// A number as it is made, from 0 up.
#[derive(Drop)]
#[cycle(number)]
struct Number {
    node: Node,
}

#[derive(Drop)]
#[cycle(number)]
enum Node {
    Zero,
    After(Snapshot<Number>),
}

impl Model for Number {
    ghost use Rattle.std.specs.Prelude.{ℕ};

    ghost Value = { ℕ };

    ghost use Rattle.addr2line_lines.specs.Count.{node_number};

    ghost view = { λ a. node_number a.node };

    ghost size = { λ n. n };
}

/// How often something was done, without a last value. It has no bytes at run time.
#[derive(Drop)]
pub struct Count {
    seen: Snapshot<Number>,
}

impl Model for Count {
    ghost use Rattle.std.specs.Prelude.{ℕ};

    ghost Value = { ℕ };

    ghost view = { λ a. a.seen.value };
}

impl Count {
    /// Nothing was done yet. Takes no memory.
    pub fn new() -> Count
        ensures gives { result ≡ 0 }
    {
        Count {
            seen: Snapshot::of(&Number { node: Node::Zero }),
        }
    }

    /// It was done once more.
    pub(crate) fn tick(&mut self)
        ensures gives { self.new ≡ self.old + 1 }
    {
        let zero = Snapshot::of(&Number { node: Node::Zero });
        let before = mem::replace(&mut self.seen, zero);
        self.seen = Snapshot::of(&Number {
            node: Node::After(before),
        });
    }
}

const _: () = prove!(size_of::<Count>() == 0);
