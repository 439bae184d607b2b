// The link table of the elements (unification.rs): roots, and the classes that merges make.
// `Unification::root_const` and `Unification::root` are the public finds; the other functions serve our own crates.
#![tactic(auto)]

ghost use Rattle.std.specs.Prelude.{◌≡◌, map};
ghost use Rattle.ids.specs.Ids.{els_of, handed_els, whole};
ghost use Rattle.ids.specs.Table.{Sized};
ghost use Rattle.unification.specs.Roots.{max_els, links_of, handed_links, root_of, fresh, find_of, found};
ghost use Rattle.unification.specs.Roots.{shortened_of, shortened, added_of};
ghost use Rattle.unification.specs.Roots.{root_const, found_answer, root, rooted};

use ids::{ElId, ElIds, Refusal, Verdict};

// Element e links to links[e]; the first `len` are there.
#[repr(C)]
#[derive(Clone, Copy)]
pub struct Unification {
    pub links: [u16; Unification::MAX_ELS],
    pub len: u16,
}

// A root, and the number of links followed to it.
#[derive(Clone, Copy)]
pub struct Find {
    pub root: ElId,
    pub count: u16,
}

// The answer of a public find.
#[derive(Clone, Copy)]
pub enum Finding {
    Found(Find),
    Refused(u16),
}

// A find, and the table that it leaves.
#[derive(Clone, Copy)]
pub struct Shortened {
    pub find: Find,
    pub unification: Unification,
}

// The answer of a public find, and the table that it leaves.
#[derive(Clone, Copy)]
pub struct Rooted {
    pub find: Finding,
    pub unification: Unification,
}

impl Unification {
    pub const MAX_ELS: usize = 256;

    // The table of no elements, with every entry numbered.
    pub fn new() -> Self
        ensures { result ≡ fresh }
    {
        let mut links = [0; Unification::MAX_ELS];
        let mut i: u16 = 0;
        while (i as usize) < Unification::MAX_ELS {
            let at = i as usize;
            links[at] = i;
            i += 1;
        }
        Unification { links, len: 0 }
    }

    // How many elements are there: a length over the limit counts as the limit.
    pub fn size(self) -> usize
        ensures { Sized (links_of self) max_els result }
    {
        let n = self.len as usize;
        if n < Unification::MAX_ELS {
            n
        } else {
            Unification::MAX_ELS
        }
    }

    // The root of `el`, with no link altered. A number that is no element is its own root.
    pub fn find(self, el: ElId) -> Find
        ensures { found result ≡ find_of (links_of self) el.0 }
    {
        let mut x = el.0;
        let mut count: u16 = 0;
        let at = x as usize;
        if self.size() <= at {
            return Find { root: el, count };
        }
        let mut to = self.links[at];
        while to < x {
            x = to;
            count += 1;
            let next = to as usize;
            to = self.links[next];
        }
        let root = ElId(x);
        Find { root, count }
    }

    // The roots of the elements that a list holds.
    pub fn roots(self, els: ElIds) -> ElIds
        ensures { handed_els result ≡ whole (map (root_of (links_of self)) (els_of els)) }
    {
        let list = els.clamped();
        let n = list.size();
        let mut out = list;
        for i in 0..n {
            let el = list.ids[i];
            let found = self.find(el);
            let root = found.root;
            out.ids[i] = root;
        }
        out
    }

    // The root of `el`. Each element passed then links to what its former link linked to.
    fn shorten(self, el: ElId) -> Shortened
        ensures { shortened result ≡ shortened_of (links_of self) el.0 }
    {
        let mut u = self;
        let mut x = el.0;
        let mut passed: u16 = 0;
        let at = x as usize;
        if self.size() <= at {
            return Shortened {
                find: Find {
                    root: el,
                    count: passed,
                },
                unification: u,
            };
        }
        let mut parent = u.links[at];
        while parent < x {
            let here = x as usize;
            let next = parent as usize;
            let after = u.links[next];
            u.links[here] = after;
            x = parent;
            passed += 1;
            parent = after;
        }
        Shortened {
            find: Find {
                root: ElId(x),
                count: passed,
            },
            unification: u,
        }
    }

    // One element more, linked to itself, where there is room. Its length is then that of the elements.
    pub fn increase_size(self) -> Unification
        ensures { handed_links result ≡ whole (added_of (links_of self)) }
    {
        let mut u = self;
        let at = self.size();
        let el = at as u16;
        if Unification::MAX_ELS <= at {
            u.len = el;
            return u;
        }
        u.links[at] = el;
        u.len = el + 1;
        u
    }

    // The public find that alters no link.
    pub fn root_const(self, el: ElId) -> Finding
        ensures { record { answer = found_answer result; after = links_of self } ≡ root_const (links_of self) el.0 }
    {
        let at = el.0 as usize;
        let verdict = Verdict::Accepted;
        let verdict = verdict.refuse_if(Refusal::UNDECLARED, self.size() <= at);
        if let Verdict::Refused(number) = verdict {
            return Finding::Refused(number);
        }
        Finding::Found(self.find(el))
    }

    // The public find that shortens the path.
    pub fn root(self, el: ElId) -> Rooted
        ensures { rooted result ≡ root (links_of self) el.0 }
    {
        let at = el.0 as usize;
        let verdict = Verdict::Accepted;
        let verdict = verdict.refuse_if(Refusal::UNDECLARED, self.size() <= at);
        if let Verdict::Refused(number) = verdict {
            return Rooted {
                find: Finding::Refused(number),
                unification: self,
            };
        }
        let s = root_value(self, el);
        let find = s.find;
        let unification = s.unification;
        Rooted {
            find: Finding::Found(find),
            unification,
        }
    }
}

// The root of `el`, with the path shortened in the table that is lent. A number that is no element is its own root.
pub fn root(unification: &mut Unification, el: ElId) -> Find
    ensures { record { find = found result; links = links_of unification.new }
        ≡ shortened_of (links_of unification.old) el.0 }
{
    let s = Unification::shorten(*unification, el);
    *unification = s.unification;
    s.find
}

// The same with plain parameters, through `root`.
pub fn root_value(unification: Unification, el: ElId) -> Shortened
    ensures { shortened result ≡ shortened_of (links_of unification) el.0 }
{
    let mut u = unification;
    let find = root(&mut u, el);
    Shortened {
        find,
        unification: u,
    }
}
