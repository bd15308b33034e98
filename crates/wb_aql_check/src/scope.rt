ghost use Rattle.std.specs.Prelude.{◌≡◌};
ghost use Rattle.wb_aql_check.specs.Names.{is_in};
ghost use Rattle.wb_aql_check.specs.Scopes.{names_of};

use wb_base::Text;

/// The variables in scope where a part of an expression stands.
#[derive(Clone, Copy)]
pub enum Scope<'a> {
    /// Those of the whole expression.
    Outer(&'a [Text]),
    /// Those around, and one more that is nearer.
    Inner(&'a Scope<'a>, &'a Text),
}

/// Is a variable of this name in scope?
pub fn is_in_scope(scope: &Scope<'_>, name: &Text) -> bool
    ensures { result ≡ is_in (names_of scope.now) name.now }
{
    match scope {
        Scope::Outer(names) => is_among(names, name),
        Scope::Inner(outer, nearest) => {
            if *nearest == name {
                return true;
            }
            is_in_scope(outer, name)
        }
    }
}

/// Is the name one of these?
fn is_among(names: &[Text], name: &Text) -> bool
    ensures { result ≡ is_in names.now name.now }
{
    for known in names {
        if known == name {
            return true;
        }
    }
    false
}
