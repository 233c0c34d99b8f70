//! Steps that are counted, and limited where a host says so.
ghost use Rattle.std.specs.Prelude.{◌≡◌, ◌≤◌, ◌<◌, ◌+◌, ◌-◌, None, Some, IfErr, IfSome, OnOk, false, true};
ghost use Rattle.syntect_count.specs.Meter.{Advances, StopsAt};

use crate::count::GhostCount;
use crate::counts::add;
use crate::stop::Stop;
use std::marker::Model;

/// How many steps were made, which contracts alone see, and how many are left,
/// where they are limited.
#[derive(Drop)]
pub struct Meter {
    count: GhostCount,
    left: Option<usize>,
}

impl Model for Meter {
    ghost use Rattle.syntect_count.specs.Meter.{Reading};

    ghost Value = { Reading };

    ghost view = { λ m. record { made = m.count.made; left = m.left } };
}

impl Meter {
    /// Before the first step, without a limit.
    pub fn unlimited() -> Meter
        ensures made { result.made ≡ 0 }
        ensures left { result.left ≡ None }
    {
        Meter {
            count: GhostCount::none(),
            left: None,
        }
    }

    /// Before the first step of so many.
    pub fn within(steps: usize) -> Meter
        ensures made { result.made ≡ 0 }
        ensures left { result.left ≡ Some steps }
    {
        Meter {
            count: GhostCount::none(),
            left: Some(steps),
        }
    }

    /// How many steps were made.
    pub fn count(&self) -> &GhostCount
        ensures { result.now.made ≡ self.now.made }
    {
        &self.count
    }

    /// How many steps are left, if they are limited.
    #[inline]
    pub fn left(&self) -> Option<usize>
        ensures { result ≡ self.now.left }
    {
        self.left
    }

    /// As many of these steps as are left.
    #[inline]
    pub fn allowed(&self, steps: usize) -> usize
        ensures few { result ≤ steps }
        ensures left { IfSome self.now.left (λ n. result ≤ n) }
        ensures all { result < steps → self.now.left ≡ Some result }
    {
        match self.left {
            Some(left) => steps.min(left),
            None => steps,
        }
    }

    /// Makes so many steps; if fewer are left, makes those and stops.
    #[inline]
    pub fn spend(&mut self, steps: usize) -> Result<(), Stop>
        ensures made { OnOk result (self.new.made ≡ self.old.made + steps) }
        ensures left { OnOk result (IfSome self.old.left (λ n. self.new.left ≡ Some (n - steps))) }
        ensures most { self.new.made ≤ self.old.made + steps }
        ensures advances { Advances self.old self.new }
        ensures stops { IfErr result (StopsAt self.new) }
    {
        let taken = self.allowed(steps);
        self.count.add(taken);
        if let Some(left) = self.left {
            self.left = Some(left - taken);
        }
        if taken < steps {
            return Err(Stop::Spent);
        }
        Ok(())
    }

    /// A count that went on from this meter's by so many steps, which were left, is that of the
    /// meter from now on.
    #[inline]
    pub fn follow(&mut self, count: &GhostCount, steps: usize)
        requires counted { count.now.made ≡ self.old.made + steps }
        requires left { IfSome self.old.left (λ n. steps ≤ n) }
        ensures made { self.new.made ≡ count.now.made }
        ensures left { IfSome self.old.left (λ n. self.new.left ≡ Some (n - steps)) }
        ensures advances { Advances self.old self.new }
    {
        self.count.add(steps);
        if let Some(left) = self.left {
            self.left = Some(left - steps);
        }
    }

    /// As many steps more are made as the count has. They are not limited.
    pub fn add(&mut self, more: &GhostCount)
        requires { self.old.left ≡ None }
        ensures made { self.new.made ≡ self.old.made + more.now.made }
        ensures advances { Advances self.old self.new }
    {
        add(&mut self.count, more);
    }
}
