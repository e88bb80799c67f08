// Where parts of a tree begin.
ghost use Rattle.std.specs.Prelude.{◌≡◌};
ghost use Rattle.l2_tree.specs.Units.{expr_tree, initialiser_tree};
ghost use Rattle.l2_tree_laws.specs.Places.{first_place, initialiser_place};

use l2_syntax::Place;
use l2_tree::{Expr, Initialiser};

/// The place of an expression's first token.
#[tactic(auto, using(l2_tree::proofs::Expressions::expressions))]
pub fn first_place(e: &Expr) -> Place
    ensures { result ≡ first_place (expr_tree e.now) }
{
    match e {
        Expr::Name(_, place)
        | Expr::Number(_, _, place)
        | Expr::Text(place)
        | Expr::Parenthesised(place, _)
        | Expr::Update(_, place, _)
        | Expr::Unary(_, place, _)
        | Expr::Sizeof(place, _)
        | Expr::SizeofType(place, _, _) => *place,
        Expr::Cast(place, _, _) => *place,
        Expr::Index(first, _, _)
        | Expr::Call(first, _, _)
        | Expr::Member(first, _, _, _, _)
        | Expr::PostUpdate(first, _, _)
        | Expr::Binary(first, _, _, _)
        | Expr::Conditional(first, _, _, _)
        | Expr::Assign(first, _, _, _)
        | Expr::Comma(first, _) => first_place(first),
    }
}

/// The place of the first token of an item of an initialiser.
#[tactic(auto, using(l2_tree::proofs::Declarations::declarations))]
pub fn initialiser_place(n: &Initialiser) -> Place
    ensures { result ≡ initialiser_place (initialiser_tree n.now) }
{
    match n {
        Initialiser::Expression(e) => first_place(e),
        Initialiser::Braced(place, _, _) => *place,
    }
}
