// Types, predicates, functions, models and morphism application functions (signature.rs), and the type lookup.
#![tactic(auto)]

ghost use Rattle.std.specs.Prelude.{◌≡◌, [], get_or};
ghost use Rattle.ids.specs.Ids.{types_of, given_els};
ghost use Rattle.ids.specs.Table.{Sized, push_of, len_of};
ghost use Rattle.signature.specs.Model.{max_types, max_preds, max_funcs, max_models, max_mor_apps, no_type, no_pred, no_func, empty, type_of};
ghost use Rattle.signature.specs.Model.{pred_of, func_of, model_of, mor_app_of, view_types, view_preds, view_funcs, view_models};
ghost use Rattle.signature.specs.Model.{view_mor_apps, sig_of};
ghost use Rattle.signature.specs.Calls.{is_type, are_types, is_func, is_model, is_mor, is_mor_of, member, functions, model_given, in_models};
ghost use Rattle.signature.specs.Calls.{in_mor_apps, pair_given, parent_count, concrete_type_at, lookup_type_of, typed_of, type_looked_of};

use ids::{ElIds, FuncId, PredId, Refusal, TypeId, TypeIds, Verdict};

// Mor is the kind of a model's morphisms, with the model's type.
#[derive(Clone, Copy)]
pub enum TypeKind {
    Plain,
    Model,
    Enum,
    Mor(TypeId),
}

// The parents are the enclosing model types, outermost first.
#[derive(Clone, Copy)]
pub struct Type {
    pub kind: TypeKind,
    pub parents: TypeIds,
}

#[repr(C)]
#[derive(Clone, Copy)]
pub struct Pred {
    pub parents: TypeIds,
    pub arity: TypeIds,
}

#[repr(C)]
#[derive(Clone, Copy)]
pub struct Func {
    pub parents: TypeIds,
    pub domain: TypeIds,
    pub codomain: TypeId,
}

#[repr(C)]
#[derive(Clone, Copy)]
pub struct ModelIds {
    pub type_: TypeId,
    pub mor: TypeId,
    pub dom: FuncId,
    pub cod: FuncId,
    pub id: FuncId,
    pub comp: FuncId,
}

#[repr(C)]
#[derive(Clone, Copy)]
pub struct MorphismMemberTypes {
    pub morphism_type: TypeId,
    pub member_type: TypeId,
}

#[repr(C)]
#[derive(Clone, Copy)]
pub struct MorAppFunc {
    pub func: FuncId,
    pub types: MorphismMemberTypes,
}

// The answer of a declaring call: the number of what was declared.
#[derive(Clone, Copy)]
pub enum Declared {
    Number(u16),
    Refused(u16),
}

// The answer of a declaring call, and the signature that it leaves.
#[derive(Clone, Copy)]
pub struct Declaring {
    pub answer: Declared,
    pub signature: Signature,
}

// A type with the number of its parents that are given beside it.
#[derive(Clone, Copy)]
pub enum Typed {
    At(TypeId, u16),
    Absent,
}

// The answer of the public type lookup.
#[derive(Clone, Copy)]
pub enum TypeLookup {
    Looked(Typed),
    Refused(u16),
}

#[derive(Clone, Copy)]
pub struct Types {
    pub items: [Type; Signature::MAX_TYPES],
    pub len: u16,
}

#[repr(C)]
#[derive(Clone, Copy)]
pub struct Preds {
    pub items: [Pred; Signature::MAX_PREDS],
    pub len: u16,
}

#[repr(C)]
#[derive(Clone, Copy)]
pub struct Funcs {
    pub items: [Func; Signature::MAX_FUNCS],
    pub len: u16,
}

#[repr(C)]
#[derive(Clone, Copy)]
pub struct Models {
    pub items: [ModelIds; Signature::MAX_MODELS],
    pub len: u16,
}

#[repr(C)]
#[derive(Clone, Copy)]
pub struct MorAppFuncs {
    pub items: [MorAppFunc; Signature::MAX_MOR_APPS],
    pub len: u16,
}

#[derive(Clone, Copy)]
pub struct Signature {
    pub types: Types,
    pub preds: Preds,
    pub funcs: Funcs,
    pub models: Models,
    pub mor_app_funcs: MorAppFuncs,
}

impl Types {
    fn new() -> Self
        ensures { view_types result ≡ [] }
    {
        let none = Type {
            kind: TypeKind::Plain,
            parents: TypeIds::new(),
        };
        Types {
            items: [none; Signature::MAX_TYPES],
            len: 0,
        }
    }

    // How many there are: a length over the limit counts as the limit.
    pub fn size(self) -> u16
        ensures { Sized (view_types self) max_types result }
    {
        let n = self.len;
        if (n as usize) < Signature::MAX_TYPES {
            n
        } else {
            Signature::MAX_TYPES as u16
        }
    }

    // One more at the end, where there is room.
    pub fn push(self, item: Type) -> Types
        ensures { (view_types result ≡ push_of max_types (view_types self) (type_of item)) × (result.len ≡ len_of self.len (view_types self) (view_types result)) }
    {
        let mut next = self;
        let n = self.size();
        let at = n as usize;
        if Signature::MAX_TYPES <= at {
            return next;
        }
        next.items[at] = item;
        next.len = n + 1;
        next
    }

    // The type of a number, or one with no lists where it is not declared.
    fn get(self, id: TypeId) -> Type
        ensures { type_of result ≡ get_or (view_types self) id.0 no_type }
    {
        if self.size() <= id.0 {
            return Type {
                kind: TypeKind::Plain,
                parents: TypeIds::new(),
            };
        }
        let at = id.0 as usize;
        self.items[at]
    }
}

impl Preds {
    fn new() -> Self
        ensures { view_preds result ≡ [] }
    {
        let none = Pred {
            parents: TypeIds::new(),
            arity: TypeIds::new(),
        };
        Preds {
            items: [none; Signature::MAX_PREDS],
            len: 0,
        }
    }

    // How many there are: a length over the limit counts as the limit.
    pub fn size(self) -> u16
        ensures { Sized (view_preds self) max_preds result }
    {
        let n = self.len;
        if (n as usize) < Signature::MAX_PREDS {
            n
        } else {
            Signature::MAX_PREDS as u16
        }
    }

    // One more at the end, where there is room.
    pub fn push(self, item: Pred) -> Preds
        ensures { (view_preds result ≡ push_of max_preds (view_preds self) (pred_of item)) × (result.len ≡ len_of self.len (view_preds self) (view_preds result)) }
    {
        let mut next = self;
        let n = self.size();
        let at = n as usize;
        if Signature::MAX_PREDS <= at {
            return next;
        }
        next.items[at] = item;
        next.len = n + 1;
        next
    }

    // The predicate of a number, or one with no lists where it is not declared.
    pub fn get(self, id: PredId) -> Pred
        ensures { pred_of result ≡ get_or (view_preds self) id.0 no_pred }
    {
        if self.size() <= id.0 {
            return Pred {
                parents: TypeIds::new(),
                arity: TypeIds::new(),
            };
        }
        let at = id.0 as usize;
        self.items[at]
    }
}

impl Funcs {
    fn new() -> Self
        ensures { view_funcs result ≡ [] }
    {
        let none = Func {
            parents: TypeIds::new(),
            domain: TypeIds::new(),
            codomain: TypeId(0),
        };
        Funcs {
            items: [none; Signature::MAX_FUNCS],
            len: 0,
        }
    }

    // How many there are: a length over the limit counts as the limit.
    pub fn size(self) -> u16
        ensures { Sized (view_funcs self) max_funcs result }
    {
        let n = self.len;
        if (n as usize) < Signature::MAX_FUNCS {
            n
        } else {
            Signature::MAX_FUNCS as u16
        }
    }

    // One more at the end, where there is room.
    pub fn push(self, item: Func) -> Funcs
        ensures { (view_funcs result ≡ push_of max_funcs (view_funcs self) (func_of item)) × (result.len ≡ len_of self.len (view_funcs self) (view_funcs result)) }
    {
        let mut next = self;
        let n = self.size();
        let at = n as usize;
        if Signature::MAX_FUNCS <= at {
            return next;
        }
        next.items[at] = item;
        next.len = n + 1;
        next
    }

    // The function of a number, or one with no lists where it is not declared.
    pub fn get(self, id: FuncId) -> Func
        ensures { func_of result ≡ get_or (view_funcs self) id.0 no_func }
    {
        if self.size() <= id.0 {
            return Func {
                parents: TypeIds::new(),
                domain: TypeIds::new(),
                codomain: TypeId(0),
            };
        }
        let at = id.0 as usize;
        self.items[at]
    }
}

impl Models {
    fn new() -> Self
        ensures { view_models result ≡ [] }
    {
        let none = ModelIds {
            type_: TypeId(0),
            mor: TypeId(0),
            dom: FuncId(0),
            cod: FuncId(0),
            id: FuncId(0),
            comp: FuncId(0),
        };
        Models {
            items: [none; Signature::MAX_MODELS],
            len: 0,
        }
    }

    // How many there are: a length over the limit counts as the limit.
    pub fn size(self) -> u16
        ensures { Sized (view_models self) max_models result }
    {
        let n = self.len;
        if (n as usize) < Signature::MAX_MODELS {
            n
        } else {
            Signature::MAX_MODELS as u16
        }
    }

    // One more at the end, where there is room.
    pub fn push(self, item: ModelIds) -> Models
        ensures { (view_models result ≡ push_of max_models (view_models self) (model_of item)) × (result.len ≡ len_of self.len (view_models self) (view_models result)) }
    {
        let mut next = self;
        let n = self.size();
        let at = n as usize;
        if Signature::MAX_MODELS <= at {
            return next;
        }
        next.items[at] = item;
        next.len = n + 1;
        next
    }

    // Whether a model of this type was given.
    pub fn has_type(self, typ: TypeId) -> bool
        ensures { result ≡ model_given typ.0 (view_models self) }
    {
        let n = self.size();
        for i in 0..n {
            let at = i as usize;
            let given = self.items[at];
            if given.type_.0 == typ.0 {
                return true;
            }
        }
        false
    }

    // Whether a model names this function.
    pub fn has_func(self, func: FuncId) -> bool
        ensures { result ≡ in_models func.0 (view_models self) }
    {
        let n = self.size();
        for i in 0..n {
            let at = i as usize;
            let ids = self.items[at];
            if ids.names(func) {
                return true;
            }
        }
        false
    }
}

impl MorAppFuncs {
    fn new() -> Self
        ensures { view_mor_apps result ≡ [] }
    {
        let none = MorAppFunc {
            func: FuncId(0),
            types: MorphismMemberTypes {
                morphism_type: TypeId(0),
                member_type: TypeId(0),
            },
        };
        MorAppFuncs {
            items: [none; Signature::MAX_MOR_APPS],
            len: 0,
        }
    }

    // How many there are: a length over the limit counts as the limit.
    pub fn size(self) -> u16
        ensures { Sized (view_mor_apps self) max_mor_apps result }
    {
        let n = self.len;
        if (n as usize) < Signature::MAX_MOR_APPS {
            n
        } else {
            Signature::MAX_MOR_APPS as u16
        }
    }

    // One more at the end, where there is room.
    pub fn push(self, item: MorAppFunc) -> MorAppFuncs
        ensures { (view_mor_apps result ≡ push_of max_mor_apps (view_mor_apps self) (mor_app_of item)) × (result.len ≡ len_of self.len (view_mor_apps self) (view_mor_apps result)) }
    {
        let mut next = self;
        let n = self.size();
        let at = n as usize;
        if Signature::MAX_MOR_APPS <= at {
            return next;
        }
        next.items[at] = item;
        next.len = n + 1;
        next
    }

    // Whether this is a morphism application function.
    pub fn has_func(self, func: FuncId) -> bool
        ensures { result ≡ in_mor_apps func.0 (view_mor_apps self) }
    {
        let n = self.size();
        for i in 0..n {
            let at = i as usize;
            let given = self.items[at];
            if given.func.0 == func.0 {
                return true;
            }
        }
        false
    }

    // Whether this pair of types was given.
    pub fn has_types(self, types: MorphismMemberTypes) -> bool
        ensures { result ≡ pair_given types.morphism_type.0 types.member_type.0 (view_mor_apps self) }
    {
        let n = self.size();
        for i in 0..n {
            let at = i as usize;
            let given = self.items[at];
            if given.types.morphism_type.0 != types.morphism_type.0 {
                continue;
            }
            if given.types.member_type.0 == types.member_type.0 {
                return true;
            }
        }
        false
    }
}

impl ModelIds {
    // Whether the model names this function.
    fn names(self, func: FuncId) -> bool
        ensures { result ≡ member func.0 (functions (model_of self)) }
    {
        if func.0 == self.dom.0 {
            return true;
        }
        if func.0 == self.cod.0 {
            return true;
        }
        if func.0 == self.id.0 {
            return true;
        }
        func.0 == self.comp.0
    }
}

impl Signature {
    pub const MAX_TYPES: usize = 32;

    pub const MAX_PREDS: usize = 32;

    pub const MAX_FUNCS: usize = 64;

    pub const MAX_MODELS: usize = 8;

    pub const MAX_MOR_APPS: usize = 32;

    pub fn new() -> Self
        ensures { sig_of result ≡ empty }
    {
        Signature {
            types: Types::new(),
            preds: Preds::new(),
            funcs: Funcs::new(),
            models: Models::new(),
            mor_app_funcs: MorAppFuncs::new(),
        }
    }

    pub fn is_type(self, t: TypeId) -> bool
        ensures { result ≡ is_type (sig_of self) t.0 }
    {
        let types = self.types;
        t.0 < types.size()
    }

    pub fn are_types(self, ts: TypeIds) -> bool
        ensures { result ≡ are_types (sig_of self) (types_of ts) }
    {
        let types = self.types;
        ts.all_below(types.size())
    }

    pub fn is_func(self, f: FuncId) -> bool
        ensures { result ≡ is_func (sig_of self) f.0 }
    {
        let funcs = self.funcs;
        f.0 < funcs.size()
    }

    pub fn is_model(self, t: TypeId) -> bool
        ensures { result ≡ is_model (sig_of self) t.0 }
    {
        let types = self.types;
        let data = types.get(t);
        let kind = data.kind;
        match kind {
            TypeKind::Plain => false,
            TypeKind::Model => true,
            TypeKind::Enum => false,
            TypeKind::Mor(_) => false,
        }
    }

    pub fn is_mor(self, t: TypeId) -> bool
        ensures { result ≡ is_mor (sig_of self) t.0 }
    {
        let types = self.types;
        let data = types.get(t);
        let kind = data.kind;
        match kind {
            TypeKind::Plain => false,
            TypeKind::Model => false,
            TypeKind::Enum => false,
            TypeKind::Mor(_) => true,
        }
    }

    // Whether a type is the Mor of the model type `model`.
    pub fn is_mor_of(self, model: TypeId, t: TypeId) -> bool
        ensures { result ≡ is_mor_of (sig_of self) model.0 t.0 }
    {
        let types = self.types;
        let data = types.get(t);
        let kind = data.kind;
        match kind {
            TypeKind::Plain => false,
            TypeKind::Model => false,
            TypeKind::Enum => false,
            TypeKind::Mor(m) => m.0 == model.0,
        }
    }
}

impl Types {
    // How many parents a type has.
    pub fn parent_count(self, typ: TypeId) -> u16
        ensures { result ≡ parent_count (view_types self) typ.0 }
    {
        let data = self.get(typ);
        let parents = data.parents;
        parents.size() as u16
    }

    // A type with as many of the given parents as it has; absent where it has more. The parents stand beside the answer.
    pub fn concrete_type_at(self, typ: TypeId, given: u16) -> Typed
        ensures { typed_of result ≡ concrete_type_at (view_types self) typ.0 given }
    {
        let n = self.parent_count(typ);
        if given < n {
            return Typed::Absent;
        }
        Typed::At(typ, n)
    }
}

impl Signature {
    // The public type lookup.
    pub fn lookup_type(self, typ: TypeId, parents: ElIds) -> TypeLookup
        ensures { type_looked_of result ≡ lookup_type_of (sig_of self) typ.0 (given_els parents) }
    {
        let verdict = Verdict::Accepted;
        let verdict = verdict.refuse_if(Refusal::MALFORMED, parents.is_too_long());
        let verdict = verdict.refuse_if(Refusal::UNDECLARED, !self.is_type(typ));
        if let Verdict::Refused(number) = verdict {
            return TypeLookup::Refused(number);
        }
        let types = self.types;
        TypeLookup::Looked(types.concrete_type_at(typ, parents.len))
    }
}
