// Applications of functions and of predicates, in ordered tables of fixed size with a count.
#![tactic(auto)]

ghost use Rattle.std.specs.Prelude.{◌≡◌, ◌++◌, [], ◌∷◌, ◌+◌, ◌≤◌, ◌<◌, take, drop};
ghost use Rattle.ids.specs.Table.{Sized, position_from, insert_of, lookup_of, len_of};
ghost use Rattle.semantics.specs.Structure.{max_func_apps, max_pred_apps, compare_func_app, compare_pred_app, result_of};
ghost use Rattle.apps.specs.View.{new_func_app, func_app_of, func_apps_of, inserted_func_app, found, new_pred_app, pred_app_of, pred_apps_of, inserted_pred_app};

use ids::{ElId, ElIds, FuncId, Ordering, Place, PredId};

// A function application with its result. Its key is the function, the parents and the arguments.
#[repr(C)]
#[derive(Clone, Copy)]
pub struct FuncApp {
    pub func: FuncId,
    pub parents: ElIds,
    pub args: ElIds,
    pub result: ElId,
}

#[repr(C)]
#[derive(Clone, Copy)]
pub struct PredApp {
    pub pred: PredId,
    pub parents: ElIds,
    pub args: ElIds,
}

// By function, then parents, then arguments, each key once.
#[repr(C)]
#[derive(Clone, Copy)]
pub struct FuncApps {
    pub items: [FuncApp; FuncApps::MAX_LEN],
    pub len: u16,
}

// By predicate, then parents, then arguments, each application once.
#[repr(C)]
#[derive(Clone, Copy)]
pub struct PredApps {
    pub items: [PredApp; PredApps::MAX_LEN],
    pub len: u16,
}

// Whether the table grew, whether it had no room, and the table.
#[derive(Clone, Copy)]
pub struct InsertedFuncApp {
    pub grew: bool,
    pub full: bool,
    pub func_apps: FuncApps,
}

#[derive(Clone, Copy)]
pub struct InsertedPredApp {
    pub grew: bool,
    pub full: bool,
    pub pred_apps: PredApps,
}

// What stands in the table under a key: the result.
#[derive(Clone, Copy)]
pub enum Stored {
    Result(ElId),
    Nothing,
}

impl FuncApp {
    pub fn new(func: FuncId, parents: ElIds, args: ElIds, res: ElId) -> Self
        ensures { result ≡ new_func_app func parents args res }
    {
        FuncApp {
            func,
            parents,
            args,
            result: res,
        }
    }

    pub fn compare(self, other: FuncApp) -> Ordering
        ensures { result ≡ compare_func_app (func_app_of self) (func_app_of other) }
    {
        match ids::compare_numbers(self.func.0, other.func.0) {
            Ordering::Less => Ordering::Less,
            Ordering::Greater => Ordering::Greater,
            Ordering::Equal => {
                let p = self.parents;
                let q = other.parents;
                match p.compare(q) {
                    Ordering::Less => Ordering::Less,
                    Ordering::Greater => Ordering::Greater,
                    Ordering::Equal => {
                        let a = self.args;
                        let b = other.args;
                        a.compare(b)
                    }
                }
            }
        }
    }
}

impl PredApp {
    pub fn new(pred: PredId, parents: ElIds, args: ElIds) -> Self
        ensures { result ≡ new_pred_app pred parents args }
    {
        PredApp {
            pred,
            parents,
            args,
        }
    }

    pub fn compare(self, other: PredApp) -> Ordering
        ensures { result ≡ compare_pred_app (pred_app_of self) (pred_app_of other) }
    {
        match ids::compare_numbers(self.pred.0, other.pred.0) {
            Ordering::Less => Ordering::Less,
            Ordering::Greater => Ordering::Greater,
            Ordering::Equal => {
                let p = self.parents;
                let q = other.parents;
                match p.compare(q) {
                    Ordering::Less => Ordering::Less,
                    Ordering::Greater => Ordering::Greater,
                    Ordering::Equal => {
                        let a = self.args;
                        let b = other.args;
                        a.compare(b)
                    }
                }
            }
        }
    }
}

impl FuncApps {
    pub const MAX_LEN: usize = 256;

    pub fn new() -> Self
        ensures { func_apps_of result ≡ [] }
    {
        let none = FuncApp::new(FuncId(0), ElIds::new(), ElIds::new(), ElId(0));
        FuncApps {
            items: [none; FuncApps::MAX_LEN],
            len: 0,
        }
    }

    // How many there are: a length over the limit counts as the limit.
    pub fn size(self) -> usize
        ensures { Sized (func_apps_of self) max_func_apps result }
    {
        let n = self.len as usize;
        if n < FuncApps::MAX_LEN {
            n
        } else {
            FuncApps::MAX_LEN
        }
    }

    // Where an entry stands, or before which one it goes.
    fn position(self, entry: FuncApp) -> Place
        ensures { result ≡ position_from compare_func_app (func_app_of entry) 0 (func_apps_of self) }
    {
        let n = self.size();
        let mut i = 0;
        while i < n {
            let here = self.items[i];
            match here.compare(entry) {
                Ordering::Less => {
                    i += 1;
                }
                Ordering::Equal => {
                    return Place::At(i);
                }
                Ordering::Greater => {
                    return Place::Before(i);
                }
            }
        }
        Place::Before(i)
    }

    // The table of n entries with one more at an index, those from there on one place higher.
    fn placed(self, n: usize, at: usize, entry: FuncApp) -> FuncApps
        requires { (at ≤ n) × (n < max_func_apps) }
        ensures { (result.len ≡ n + 1) × (take (n + 1) result.items ≡ take at self.items ++ entry ∷ drop at (take n self.items)) }
    {
        let mut next = self;
        let mut i = n;
        while at < i {
            let moved = next.items[i - 1];
            next.items[i] = moved;
            i -= 1;
        }
        next.items[at] = entry;
        next.len = (n + 1) as u16;
        next
    }

    // Inserts an application whose key is not there yet.
    pub fn insert(self, entry: FuncApp) -> InsertedFuncApp
        ensures { (inserted_func_app result ≡ insert_of compare_func_app (func_app_of entry) max_func_apps (func_apps_of self)) × (result.func_apps.len ≡ len_of self.len (func_apps_of self) (func_apps_of result.func_apps)) }
    {
        let n = self.size();
        let found = self.position(entry);
        let Place::Before(at) = found else {
            return InsertedFuncApp {
                grew: false,
                full: false,
                func_apps: self,
            };
        };
        if FuncApps::MAX_LEN <= n {
            return InsertedFuncApp {
                grew: false,
                full: true,
                func_apps: self,
            };
        }
        let next = self.placed(n, at, entry);
        InsertedFuncApp {
            grew: true,
            full: false,
            func_apps: next,
        }
    }

    // The result that is stored under an application's key.
    pub fn get(self, app: FuncApp) -> Stored
        ensures { found result ≡ result_of (lookup_of compare_func_app (func_app_of app) (func_apps_of self)) }
    {
        let place = self.position(app);
        let Place::At(i) = place else {
            return Stored::Nothing;
        };
        let here = self.items[i];
        let result = here.result;
        Stored::Result(result)
    }
}

impl PredApps {
    pub const MAX_LEN: usize = 256;

    pub fn new() -> Self
        ensures { pred_apps_of result ≡ [] }
    {
        let none = PredApp::new(PredId(0), ElIds::new(), ElIds::new());
        PredApps {
            items: [none; PredApps::MAX_LEN],
            len: 0,
        }
    }

    // How many there are: a length over the limit counts as the limit.
    pub fn size(self) -> usize
        ensures { Sized (pred_apps_of self) max_pred_apps result }
    {
        let n = self.len as usize;
        if n < PredApps::MAX_LEN {
            n
        } else {
            PredApps::MAX_LEN
        }
    }

    // Where an entry stands, or before which one it goes.
    fn position(self, entry: PredApp) -> Place
        ensures { result ≡ position_from compare_pred_app (pred_app_of entry) 0 (pred_apps_of self) }
    {
        let n = self.size();
        let mut i = 0;
        while i < n {
            let here = self.items[i];
            match here.compare(entry) {
                Ordering::Less => {
                    i += 1;
                }
                Ordering::Equal => {
                    return Place::At(i);
                }
                Ordering::Greater => {
                    return Place::Before(i);
                }
            }
        }
        Place::Before(i)
    }

    // The table of n entries with one more at an index, those from there on one place higher.
    fn placed(self, n: usize, at: usize, entry: PredApp) -> PredApps
        requires { (at ≤ n) × (n < max_pred_apps) }
        ensures { (result.len ≡ n + 1) × (take (n + 1) result.items ≡ take at self.items ++ entry ∷ drop at (take n self.items)) }
    {
        let mut next = self;
        let mut i = n;
        while at < i {
            let moved = next.items[i - 1];
            next.items[i] = moved;
            i -= 1;
        }
        next.items[at] = entry;
        next.len = (n + 1) as u16;
        next
    }

    // Inserts an application that is not there yet.
    pub fn insert(self, entry: PredApp) -> InsertedPredApp
        ensures { (inserted_pred_app result ≡ insert_of compare_pred_app (pred_app_of entry) max_pred_apps (pred_apps_of self)) × (result.pred_apps.len ≡ len_of self.len (pred_apps_of self) (pred_apps_of result.pred_apps)) }
    {
        let n = self.size();
        let found = self.position(entry);
        let Place::Before(at) = found else {
            return InsertedPredApp {
                grew: false,
                full: false,
                pred_apps: self,
            };
        };
        if PredApps::MAX_LEN <= n {
            return InsertedPredApp {
                grew: false,
                full: true,
                pred_apps: self,
            };
        }
        let next = self.placed(n, at, entry);
        InsertedPredApp {
            grew: true,
            full: false,
            pred_apps: next,
        }
    }
}
