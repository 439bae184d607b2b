// A function application, or the equality of its result with the one that is stored.
// It works on links, pairs and applications alone; the causes of the call are judged in `inserting`.
#![tactic(auto)]

ghost use Rattle.std.specs.Prelude.{◌≡◌};
ghost use Rattle.unification.specs.Roots.{links_of};
ghost use Rattle.apps.specs.View.{func_app_of, func_apps_of};
ghost use Rattle.equalities.specs.View.{pairs_of};
ghost use Rattle.applying.specs.View.{apply_in, applied_of};

use apps::{FuncApp, FuncApps, Stored};
use equalities::Pairs;
use unification::Unification;

#[derive(Clone, Copy)]
pub struct Applied {
    pub unification: Unification,
    pub pairs: Pairs,
    pub func_apps: FuncApps,
    // Whether the application is new, or the roots of its result and of the stored one differ.
    pub yes: bool,
    // Whether an entry is needed and its table is at its limit: then nothing changes.
    pub full: bool,
}

pub fn insert_func_app_or_equate(
    unification: Unification,
    pairs: Pairs,
    func_apps: FuncApps,
    app: FuncApp,
) -> Applied
    ensures { applied_of result ≡ apply_in (func_app_of app) (links_of unification) (pairs_of pairs) (func_apps_of func_apps) }
{
    let entry = canonical::canonical_func_app(unification, app);
    let result = entry.result;
    match func_apps.get(entry) {
        Stored::Nothing => {
            let inserted = func_apps.insert(entry);
            let table = inserted.func_apps;
            Applied {
                unification,
                pairs,
                func_apps: table,
                yes: inserted.grew,
                full: inserted.full,
            }
        }
        Stored::Result(existing) => {
            if existing.0 == result.0 {
                return Applied {
                    unification,
                    pairs,
                    func_apps,
                    yes: false,
                    full: false,
                };
            }
            if Pairs::MAX_LEN <= pairs.size() {
                return Applied {
                    unification,
                    pairs,
                    func_apps,
                    yes: false,
                    full: true,
                };
            }
            let equated = equalities::equate(unification, pairs, existing, result);
            let shortened = equated.unification;
            let queued = equated.pairs;
            Applied {
                unification: shortened,
                pairs: queued,
                func_apps,
                yes: equated.differ,
                full: false,
            }
        }
    }
}
