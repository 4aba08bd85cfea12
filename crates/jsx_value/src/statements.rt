//! The statements of a component.

ghost use Rattle.std.specs.Prelude.{◌≡◌, ◌∷◌, [], if◌then◌else◌, IfOk};
ghost use Rattle.settle_script.specs.Settlements.{known};
ghost use Rattle.jsx_value.specs.Expressions.{Names, with_name, value_of};
ghost use Rattle.jsx_value.specs.Values.{is_true, text_of};
ghost use Rattle.jsx_value.specs.declared.shape.Shape.TheVariants as s;
ghost use Rattle.jsx_value.specs.Positions.{Opened, Place, opened, fetch, run};
ghost use Rattle.jsx_value.specs.SeenPlaces.{ended};

use crate::eval;
use crate::page::Page;
use crate::scope::Scope;
use crate::shape::Shape;
use crate::spot::Kin;
use crate::val::Val;
use fizz_text::OutOfMemory;
use jsx_syntax::{Expr, Name, Stmt};
use settle_script::Outcome;
use std::alloc::Global;

/// How a statement or all statements of a component end: with the scope of what follows, or with a shape.
#[derive(Drop)]
pub(crate) enum Ended<'a> {
    Goes(Scope<'a>),
    Stops(Shape<Kin<'a>>),
}

/// The statements in their order, up to the first that decides.
pub(crate) fn run<'a>(
    alloc: Global,
    page: &Page<'a>,
    stmts: &'a [Stmt],
    scope: Scope<'a>,
) -> Result<Ended<'a>, OutOfMemory>
    ensures { IfOk result (λ end. (go : Names → Opened Place)
        → ended end go ≡ run (known page.now.outcomes.now page.now.settled) stmts.now go scope.entry) }
{
    let mut scope = scope;
    for stmt in stmts {
        match statement(alloc, page, stmt, scope)? {
            Ended::Goes(next) => scope = next,
            Ended::Stops(shape) => return Ok(Ended::Stops(shape)),
        }
    }
    Ok(Ended::Goes(scope))
}

fn statement<'a>(
    alloc: Global,
    page: &Page<'a>,
    stmt: &'a Stmt,
    scope: Scope<'a>,
) -> Result<Ended<'a>, OutOfMemory>
    ensures { IfOk result (λ end. (go : Names → Opened Place)
        → ended end go ≡ run (known page.now.outcomes.now page.now.settled) (stmt.now ∷ []) go scope.entry) }
{
    match stmt {
        Stmt::Fetch { name, resource } => fetch(alloc, page, name, resource, scope),
        Stmt::Bind { name, value } => {
            let value = eval(alloc, value, &scope)?;
            goes(scope, name, value)
        }
        Stmt::Throw { test, digest } => throw(alloc, test, digest, scope),
    }
}

/// `const name = use(resource);`
fn fetch<'a>(
    alloc: Global,
    page: &Page<'a>,
    name: &'a Name,
    resource: &'a Expr,
    scope: Scope<'a>,
) -> Result<Ended<'a>, OutOfMemory>
    ensures { IfOk result (λ end. (go : Names → Opened Place)
        → ended end go ≡ fetch (text_of (value_of resource.now scope.entry))
        (known page.now.outcomes.now page.now.settled (text_of (value_of resource.now scope.entry)))
        (λ x. go (with_name name.now x scope.entry))) }
{
    let resource = eval(alloc, resource, &scope)?.text(alloc)?;
    match page.outcomes.get(&resource, page.settled) {
        None => Ok(Ended::Stops(Shape::Wait { resource })),
        Some(Outcome::Rejected(digest)) => Ok(Ended::Stops(Shape::Fail {
            digest: digest.copy(alloc)?,
        })),
        Some(Outcome::Resolved(value)) => goes(scope, name, Val::given(value)),
    }
}

fn goes<'a>(scope: Scope<'a>, name: &'a Name, value: Val<'a>) -> Result<Ended<'a>, OutOfMemory>
    ensures { IfOk result (λ end. (go : Names → Opened Place)
        → ended end go ≡ go (with_name name.now value.entry scope.entry)) }
{
    let mut scope = scope;
    scope.bind(&name.text, value)?;
    Ok(Ended::Goes(scope))
}

/// `if (test) throw digest;`
fn throw<'a>(
    alloc: Global,
    test: &'a Expr,
    digest: &'a Expr,
    scope: Scope<'a>,
) -> Result<Ended<'a>, OutOfMemory>
    ensures { IfOk result (λ end. (go : Names → Opened Place)
        → ended end go ≡ (if is_true (value_of test.now scope.entry)
        then opened (s.Fail (text_of (value_of digest.now scope.entry))) else go scope.entry)) }
{
    if eval(alloc, test, &scope)?.is_true() {
        let digest = eval(alloc, digest, &scope)?.text(alloc)?;
        return Ok(Ended::Stops(Shape::Fail { digest }));
    }
    Ok(Ended::Goes(scope))
}
