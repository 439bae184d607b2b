// Entries with what they name as roots.
#![tactic(auto)]

ghost use Rattle.std.specs.Prelude.{◌≡◌};
ghost use Rattle.unification.specs.Roots.{links_of};
ghost use Rattle.semantics.specs.Structure.{canonical_fact, canonical_func_app};
ghost use Rattle.facts.specs.View.{fact_of};
ghost use Rattle.apps.specs.View.{func_app_of};

use apps::FuncApp;
use facts::{ConcreteType, Fact};
use unification::Unification;

// A fact with its element and its parents as roots.
pub fn canonical_fact(unification: Unification, fact: Fact) -> Fact
    ensures { fact_of result ≡ canonical_fact (links_of unification) (fact_of fact) }
{
    let el = fact.el;
    let typ = fact.ct.typ;
    let given = fact.ct.parents;
    let found = unification.find(el);
    let root = found.root;
    let parents = unification.roots(given);
    Fact {
        el: root,
        ct: ConcreteType { typ, parents },
    }
}

// An application with its parents, arguments and result as roots.
pub fn canonical_func_app(unification: Unification, app: FuncApp) -> FuncApp
    ensures { func_app_of result ≡ canonical_func_app (links_of unification) (func_app_of app) }
{
    let func = app.func;
    let p = app.parents;
    let a = app.args;
    let e = app.result;
    let parents = unification.roots(p);
    let args = unification.roots(a);
    let found = unification.find(e);
    let result = found.root;
    FuncApp {
        func,
        parents,
        args,
        result,
    }
}
