//! A machine behind a pointer.
ghost use Rattle.std.specs.Prelude.{◌≡◌, Option, Some, None, MatchOption};
ghost use Rattle.fj_c.specs.Held.{held_if};
ghost use Rattle.fj_rules.specs.Pasts.{Past};

use crate::loose::Loose;
use core::mem::replace;
use fj_machine::Machine;
use std::alloc::Global;
use std::marker::Model;

/// A machine that C holds, or none: zeroed memory is none.
#[repr(C)]
pub struct Handle {
    at: *mut (),
    alloc: Global,
    pub ghost past: { Option Past },
}

impl Model for Handle {
    ghost also_owns = { λ p. held_if p.alloc p.at p.past };
}

// A machine may go to another thread, and so may what frees it.
unsafe impl Send for Handle {}

impl Handle {
    /// With this machine.
    pub fn of(machine: Box<Machine>) -> Handle
        ensures { result.past ≡ Some machine.value }
    {
        Handle::hold(Loose::of(machine))
    }

    /// With no machine.
    pub fn none(alloc: Global) -> Handle
        ensures { result.past ≡ None }
    {
        Handle {
            at: std::ptr::null_mut::<()>(),
            alloc,
        }
    }

    /// The machine, if there is one.
    pub fn into_box(self) -> Option<Box<Machine>>
        ensures { MatchOption result (self.past ≡ None) (λ b. self.past ≡ Some b.value) }
    {
        match self.let_go() {
            Some(loose) => Some(loose.into_box()),
            None => None,
        }
    }

    /// Takes the machine out, if there is one. Then there is none.
    #[inline(always)]
    pub fn take(&mut self, alloc: Global) -> Option<Box<Machine>>
        ensures taken { MatchOption result (self.old.past ≡ None) (λ b. self.old.past ≡ Some b.value) }
        ensures empty { self.new.past ≡ None }
    {
        replace(self, Handle::none(alloc)).into_box()
    }

    /// Puts a machine in.
    #[inline(always)]
    pub fn put(&mut self, machine: Box<Machine>)
        ensures { self.new.past ≡ Some machine.value }
    {
        let _old = replace(self, Handle::of(machine)).into_box();
    }

    /// Keeps the address, and forgets its type.
    fn hold(loose: Loose<Machine, Global>) -> Handle
        ensures { result.past ≡ Some loose.value }
    {
        let Loose { at, alloc } = loose;
        Handle {
            at: at as *mut (),
            alloc,
        }
    }

    /// The address with its type, if it is not null.
    fn let_go(self) -> Option<Loose<Machine, Global>>
        ensures { MatchOption result (self.past ≡ None) (λ l. self.past ≡ Some l.value) }
    {
        let Handle { at, alloc } = self;
        if at.is_null() {
            None
        } else {
            Some(Loose {
                at: at as *mut Machine,
                alloc,
            })
        }
    }
}
