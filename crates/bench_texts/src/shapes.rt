// The kinds of texts. In each part of a text `%` is a number, and `@` the one before it.
ghost use Rattle.std.specs.Prelude.{◌≡◌, map, option_map};
ghost use Rattle.bench_texts.specs.Shapes.{said_of, shape_at, shape_in};

/// A text: a part that stands once, one for each number from 1 up to a count, the same again, and one behind these. In those that
/// stand once, the number is the count. A part is a text; contracts see it as its bytes.
#[derive(Clone, Copy)]
pub struct Shape<Part> {
    pub kind: Part,
    pub head: Part,
    pub each: Part,
    pub middle: Part,
    pub again: Part,
    pub tail: Part,
}

/// The shape of this kind; `None` where there is none.
pub fn shape_of(kind: &str) -> Option<Shape<&'static str>>
    ensures { option_map said_of result ≡ shape_at kind.now }
{
    shape_in(&SHAPES, kind)
}

// The first of some shapes that has this kind.
fn shape_in(shapes: &[Shape<&'static str>], kind: &str) -> Option<Shape<&'static str>>
    ensures { option_map said_of result ≡ shape_in (map said_of shapes.now) kind.now }
{
    let mut rest = shapes;
    'each: while let [shape, others @ ..] = rest {
        if shape.kind == kind {
            return Some(*shape);
        }
        rest = others;
    }
    None
}

/// The shapes that there are, each of another kind.
pub const SHAPES: [Shape<&str>; 24] = [
    // So many signatures.
    Shape {
        kind: "signatures",
        head: "sig s0",
        each: ",s%",
        middle: "",
        again: "",
        tail: " {}\nrun {} for 1\n",
    },
    // So many signatures, each in the one before it.
    Shape {
        kind: "parents",
        head: "sig s0 {}\n",
        each: "sig s% in s@ {}\n",
        middle: "",
        again: "",
        tail: "run {} for 1\n",
    },
    // So many fields of one signature.
    Shape {
        kind: "fields",
        head: "sig a { f0:a",
        each: ",f%:a",
        middle: " }\nfact { some f@ }\n",
        again: "",
        tail: "run {} for 1\n",
    },
    // So many signatures with a field of one name, each of which is asked for.
    Shape {
        kind: "shared",
        head: "sig s0",
        each: ",s%",
        middle: " { f: s0 }\nfact { some s0.f",
        again: " some s%.f",
        tail: " }\nrun {} for 1\n",
    },
    // So many parameters, each used once.
    Shape {
        kind: "parameters",
        head: "pred p [x0",
        each: ",x%",
        middle: ": univ] { some x0",
        again: " some x%",
        tail: " }\nrun {} for 1\n",
    },
    // So many parameters, the domain of each the one before it.
    Shape {
        kind: "domains",
        head: "pred p [x0:univ",
        each: ",x%:x@",
        middle: "] { some x@ }\n",
        again: "",
        tail: "run {} for 1\n",
    },
    // So many parameters, the domain of each but the first with a fault.
    Shape {
        kind: "bad_domains",
        head: "pred p [x0:univ",
        each: ",x%:x0.x0",
        middle: "] {}\n",
        again: "",
        tail: "run {} for 1\n",
    },
    // So many variables of one quantifier, each used once.
    Shape {
        kind: "variables",
        head: "fact { all x0",
        each: ",x%",
        middle: ": none { some x0",
        again: " some x%",
        tail: " } }\nrun {} for 1\n",
    },
    // So many names of a `let`, each of which is the one before it.
    Shape {
        kind: "lets",
        head: "fact { let x0=univ",
        each: ",x%=x@",
        middle: " | some x@ }\n",
        again: "",
        tail: "run {} for 1\n",
    },
    // So many nested quantifiers, the domain of each the variable of the one before it.
    Shape {
        kind: "quantifiers",
        head: "sig a {}\nfact { all x0: a",
        each: " | all x%: x@",
        middle: " | some x@ }\n",
        again: "",
        tail: "run {} for 1\n",
    },
    // So many nested brackets, with an operator of each level before the next one.
    Shape {
        kind: "brackets",
        head: "sig a {}\nfact { some a",
        each: "+a++a&a->a<:(a",
        middle: "",
        again: ")",
        tail: " }\nrun {} for 1\n",
    },
    // So many predicates, each of which calls the one before it.
    Shape {
        kind: "chain",
        head: "pred p0 {}\n",
        each: "pred p% {p@}\n",
        middle: "",
        again: "",
        tail: "run p@ for 1\n",
    },
    // The same with a parameter that is passed on.
    Shape {
        kind: "passed",
        head: "pred p0[x:univ]{some x}\n",
        each: "pred p%[x:univ]{p@[x]}\n",
        middle: "",
        again: "",
        tail: "run {} for 1\n",
    },
    // So many functions, each of which calls the one before it, and a shared name behind the last.
    Shape {
        kind: "functions",
        head: "sig a { f: a }\nsig b { f: a }\nfun g0: a {a}\n",
        each: "fun g%: a {g@}\n",
        middle: "fact { some g@.f }\n",
        again: "",
        tail: "run {} for 1\n",
    },
    // So many predicates, each of which calls the one before it, and the first one the last.
    Shape {
        kind: "recursion",
        head: "pred p0 {p@}\n",
        each: "pred p% {p@}\n",
        middle: "",
        again: "",
        tail: "run p@ for 1\n",
    },
    // A name of so many characters, used once.
    Shape {
        kind: "long_name",
        head: "sig a",
        each: "a",
        middle: " {}\nfact { some a",
        again: "a",
        tail: " }\nrun {} for 1\n",
    },
    // So many fields of 32 tuples each.
    Shape {
        kind: "relations",
        head: "sig a { f0: set b",
        each: ",f%: set b",
        middle: " }\nsig b {}\n",
        again: "",
        tail: "run {} for 8 a, 4 b\n",
    },
    // So many formulas of three terms each.
    Shape {
        kind: "formulas",
        head: "sig a {}\nrun { some a",
        each: " some a",
        middle: "",
        again: "",
        tail: " } for 1\n",
    },
    // So many joins of two relations of 1,024 tuples each.
    Shape {
        kind: "joins",
        head: "sig a { f: set a }\nrun { some f.f",
        each: " some f.f",
        middle: "",
        again: "",
        tail: " } for 32\n",
    },
    // So many nested quantifiers over 32 atoms each.
    Shape {
        kind: "binders",
        head: "sig a {}\nrun { all x0: a",
        each: " | all x%: a",
        middle: " | x0 = x@",
        again: "",
        tail: " } for 32\n",
    },
    // So many operands of `<=>`.
    Shape {
        kind: "links",
        head: "sig a {}\nrun { some a",
        each: " <=> some a",
        middle: "",
        again: "",
        tail: " } for 1\n",
    },
    // So many operands of `+`.
    Shape {
        kind: "sums",
        head: "sig a {}\nrun { some a",
        each: "+a",
        middle: "",
        again: "",
        tail: " } for 1\n",
    },
    // So many predicates, each of which calls the one before it twice.
    Shape {
        kind: "doubled",
        head: "sig a {}\npred p0 { some a }\n",
        each: "pred p% { p@ p@ }\n",
        middle: "",
        again: "",
        tail: "run p@ for 1\n",
    },
    // The same for all atoms of the empty set.
    Shape {
        kind: "doubled_nowhere",
        head: "sig a {}\npred p0 { some a }\n",
        each: "pred p% { p@ p@ }\n",
        middle: "",
        again: "",
        tail: "run { all x: none | p@ } for 1\n",
    },
];
