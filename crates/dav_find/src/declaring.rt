//! The namespace prefixes that a response declares besides `D`.
ghost use Rattle.std.specs.Prelude.{◌≡◌, IfOk, IfErr};
ghost use Rattle.std.specs.List.{list_any};
ghost use Rattle.dav_resource.specs.declared.error.DavError.TheVariants.{Memory};
ghost use Rattle.dav_find.specs.Asked.{is_of};
ghost use Rattle.dav_find.specs.Declaring.{with_prefix, with_prefixes};

use crate::asked::AskedProperty;
use crate::search::{Search, is_of};
use dav_props::PropWriter;
use dav_resource::DavResult;

/// Declares a prefix on the writer's tree for each of four namespaces that a property of the search has:
/// Apache's (`A`), Microsoft's (`Z`), Nextcloud's (`nc`) and ownCloud's (`oc`) (Namespaces in XML 1.0,
/// section 3). The only error is `Memory`.
pub fn declare_prefixes(writer: PropWriter, search: &Search) -> DavResult<PropWriter>
    ensures declared { IfOk result (λ declared. declared.tree ≡ with_prefixes search.now.asked.items writer.tree) }
    ensures err { IfErr result (λ e. e ≡ Memory) }
{
    let writer = declare(writer, search, "A", "http://apache.org/dav/props/")?;
    let writer = declare(writer, search, "Z", "urn:schemas-microsoft-com:")?;
    let writer = declare(writer, search, "nc", "http://nextcloud.org/ns")?;
    let writer = declare(writer, search, "oc", "http://owncloud.org/ns")?;
    Ok(writer)
}

/// Declares the prefix on the writer's tree if a property of the search has the namespace. The only error is
/// `Memory`.
fn declare(
    writer: PropWriter,
    search: &Search,
    prefix: &str,
    namespace: &str,
) -> DavResult<PropWriter>
    ensures declared { IfOk result (λ declared. declared.tree ≡ with_prefix search.now.asked.items prefix.now namespace.now writer.tree) }
    ensures err { IfErr result (λ e. e ≡ Memory) }
{
    if has_namespace(search.asked.as_slice(), namespace) {
        let writer = writer.declare(prefix, namespace)?;
        return Ok(writer);
    }
    Ok(writer)
}

/// Returns whether one of the properties has this namespace.
fn has_namespace(asked: &[AskedProperty], namespace: &str) -> bool
    ensures { result ≡ list_any (λ (a : AskedProperty). is_of namespace.now a.element) asked.now }
{
    asked
        .iter()
        .any(|property| is_of(property.element(), namespace))
}
