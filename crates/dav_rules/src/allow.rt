//! What a rule allows.
ghost use Rattle.std.specs.Prelude.{◌≡◌};
ghost use Rattle.std.specs.List.{list_all, list_any};
ghost use Rattle.toml.specs.View.{view, items_view};
ghost use Rattle.dav_rules.specs.Rules.{allowed_of, allowed_by, list_of, is_text, is_right};

use dav_rights::Allowed;
use toml::Value;

/// Reads what a rule allows. Returns `None` if it does not list that.
pub(crate) fn read_allowed(rule: &Value) -> Option<Allowed>
    ensures { result ≡ allowed_of (view rule.now) }
{
    allowed_by(rule.get("allow")?.as_array()?)
}

/// Returns what these rights allow, if they are rights.
fn allowed_by(rights: &[Value]) -> Option<Allowed>
    ensures { result ≡ allowed_by (list_of (items_view rights.now)) }
{
    if !are_rights(rights) {
        return None;
    }
    Some(Allowed {
        list: has(rights, "list"),
        read: has(rights, "read"),
        write: has(rights, "write"),
    })
}

/// Whether each is a right.
fn are_rights(rights: &[Value]) -> bool
    ensures { result ≡ list_all (λ v. is_right (view v)) rights.now }
{
    rights.iter().all(is_right)
}

/// Whether one of them is this one.
fn has(rights: &[Value], word: &str) -> bool
    ensures { result ≡ list_any (λ v. is_text word.now (view v)) rights.now }
{
    rights.iter().any(|right| is_text(right, word))
}

/// Whether a value is a right.
fn is_right(value: &Value) -> bool
    ensures { result ≡ is_right (view value.now) }
{
    is_text(value, "list") || is_text(value, "read") || is_text(value, "write")
}

/// Whether a value is this string.
fn is_text(value: &Value, word: &str) -> bool
    ensures { result ≡ is_text word.now (view value.now) }
{
    match value.as_str() {
        Some(text) => text == word,
        None => false,
    }
}
