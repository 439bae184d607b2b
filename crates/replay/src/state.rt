// The lines of a structure.
use apps::{FuncApp, PredApp};
use facts::Fact;
use ids::ElIds;
use std::fmt::{Display, Formatter};
use std::io::Write;
use std::{fmt, io};
use structure::Structure;

// Elements, each with a space before it.
#[derive(Clone, Copy)]
pub struct Els(pub ElIds);

impl Display for Els {
    fn fmt<W: fmt::Write>(&self, f: &mut Formatter<W>) -> fmt::Result {
        let els = self.0;
        for el in &els.ids[..els.size()] {
            write!(f, " {}", el.0)?;
        }
        Ok(())
    }
}

// `f E T p..` or `i E T p..`
fn put_fact<W: Write>(out: &mut W, word: &str, fact: &Fact) -> io::Result<()> {
    let ct = fact.ct;
    writeln!(out, "{word} {} {}{}", fact.el.0, ct.typ.0, Els(ct.parents))
}

// `a F p.. / q.. = R`
fn put_func_app<W: Write>(out: &mut W, app: &FuncApp) -> io::Result<()> {
    let (func, result) = (app.func.0, app.result.0);
    writeln!(
        out,
        "a {func}{} /{} = {result}",
        Els(app.parents),
        Els(app.args)
    )
}

// `p P p.. / q..`
fn put_pred_app<W: Write>(out: &mut W, app: &PredApp) -> io::Result<()> {
    writeln!(
        out,
        "p {}{} /{}",
        app.pred.0,
        Els(app.parents),
        Els(app.args)
    )
}

// `e E L M` for each element, and after it its facts, which come in the order of their elements.
fn put_els<W: Write>(out: &mut W, s: &Structure) -> io::Result<()> {
    let links = &s.unification.links[..s.unification.size()];
    let mut facts = &s.els.items[..s.els.size()];
    for (el, (link, mark)) in links.iter().zip(&s.inferred_parent_els).enumerate() {
        writeln!(out, "e {el} {link} {}", u8::from(*mark))?;
        let n = facts.iter().position(|fact| usize::from(fact.el.0) != el);
        let (own, others) = facts.split_at(n.unwrap_or(facts.len()));
        for fact in own {
            put_fact(out, "f", fact)?;
        }
        facts = others;
    }
    Ok(())
}

// `s B S`: whether a call of kinds 6 to 15 was accepted, and whether it is settled.
pub fn put_flags<W: Write>(out: &mut W, s: &Structure) -> io::Result<()> {
    writeln!(
        out,
        "s {} {}",
        u8::from(s.started),
        u8::from(s.is_settled())
    )
}

pub fn dump<W: Write>(out: &mut W, s: &Structure) -> io::Result<()> {
    put_els(out, s)?;
    for app in &s.func_apps.items[..s.func_apps.size()] {
        put_func_app(out, app)?;
    }
    for app in &s.pred_apps.items[..s.pred_apps.size()] {
        put_pred_app(out, app)?;
    }
    for (key, slot) in s.var_els.slots.iter().enumerate() {
        if slot.given {
            writeln!(out, "v {key} {}", slot.el.0)?;
        }
    }
    for (typ, slot) in s.ambient_model_els.slots.iter().enumerate() {
        if slot.given {
            writeln!(out, "m {typ} {}", slot.el.0)?;
        }
    }
    for pair in &s.pending_equalities.items[..s.pending_equalities.size()] {
        writeln!(out, "q {} {}", pair.lhs.0, pair.rhs.0)?;
    }
    for fact in &s.pending_type_impositions.items[..s.pending_type_impositions.size()] {
        put_fact(out, "i", fact)?;
    }
    put_flags(out, s)
}
