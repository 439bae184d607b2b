// Variables by key and ambient model elements by type.
#![tactic(auto)]

ghost use Rattle.std.specs.Prelude.{◌≡◌, []};
ghost use Rattle.ids.specs.Table.{present};
ghost use Rattle.signature.specs.Model.{max_types};
ghost use Rattle.semantics.specs.Structure.{max_vars, compare_var, compare_ambient};
ghost use Rattle.semantics.specs.Calls as calls;
ghost use Rattle.bindings.specs.View.{var_of, vars_of, ambient_of, ambients_of, bound_of, el_of, ambient_el_of};

use ids::{ElId, TypeId};
use signature::Signature;

// An element, where one is given.
#[repr(C)]
#[derive(Clone, Copy)]
pub struct Slot {
    pub given: bool,
    pub el: ElId,
}

#[derive(Clone, Copy)]
pub struct VarEl {
    pub key: u16,
    pub el: ElId,
}

#[derive(Clone, Copy)]
pub struct AmbientEl {
    pub typ: TypeId,
    pub el: ElId,
}

// A slot for each key.
#[repr(C)]
#[derive(Clone, Copy)]
pub struct VarEls {
    pub slots: [Slot; VarEls::MAX_LEN],
}

// A slot for each type.
#[repr(C)]
#[derive(Clone, Copy)]
pub struct AmbientEls {
    pub slots: [Slot; Signature::MAX_TYPES],
}

// The element of a key.
#[derive(Clone, Copy)]
pub enum Bound {
    El(ElId),
    Nothing,
}

impl VarEls {
    pub const MAX_LEN: usize = 64;

    pub fn new() -> Self
        ensures { vars_of result ≡ [] }
    {
        let none = Slot {
            given: false,
            el: ElId(0),
        };
        VarEls {
            slots: [none; VarEls::MAX_LEN],
        }
    }

    // Whether the key is given.
    pub fn contains(self, v: VarEl) -> bool
        ensures { result ≡ present compare_var (var_of v) (vars_of self) }
    {
        let at = v.key as usize;
        if VarEls::MAX_LEN <= at {
            return false;
        }
        let slot = self.slots[at];
        slot.given
    }

    // Binds a key that is not given yet.
    pub fn insert(self, v: VarEl) -> VarEls
        ensures { vars_of result ≡ bound_of compare_var max_vars v.key (var_of v) (vars_of self) }
    {
        let mut next = self;
        let at = v.key as usize;
        if VarEls::MAX_LEN <= at {
            return next;
        }
        let slot = self.slots[at];
        if slot.given {
            return next;
        }
        let el = v.el;
        next.slots[at] = Slot { given: true, el };
        next
    }
}

impl AmbientEls {
    pub fn new() -> Self
        ensures { ambients_of result ≡ [] }
    {
        let none = Slot {
            given: false,
            el: ElId(0),
        };
        AmbientEls {
            slots: [none; Signature::MAX_TYPES],
        }
    }

    // Whether the type has an ambient element.
    pub fn contains(self, a: AmbientEl) -> bool
        ensures { result ≡ present compare_ambient (ambient_of a) (ambients_of self) }
    {
        let at = a.typ.0 as usize;
        if Signature::MAX_TYPES <= at {
            return false;
        }
        let slot = self.slots[at];
        slot.given
    }

    // Binds a type that has no ambient element yet.
    pub fn insert(self, a: AmbientEl) -> AmbientEls
        ensures { ambients_of result ≡ bound_of compare_ambient max_types a.typ.0 (ambient_of a) (ambients_of self) }
    {
        let mut next = self;
        let at = a.typ.0 as usize;
        if Signature::MAX_TYPES <= at {
            return next;
        }
        let slot = self.slots[at];
        if slot.given {
            return next;
        }
        let el = a.el;
        next.slots[at] = Slot { given: true, el };
        next
    }

    // The ambient element of a type.
    pub fn get(self, typ: TypeId) -> Bound
        ensures { el_of result ≡ ambient_el_of (calls.ambient_of typ.0 (ambients_of self)) }
    {
        let at = typ.0 as usize;
        if Signature::MAX_TYPES <= at {
            return Bound::Nothing;
        }
        let slot = self.slots[at];
        if slot.given {
            let el = slot.el;
            return Bound::El(el);
        }
        Bound::Nothing
    }
}
