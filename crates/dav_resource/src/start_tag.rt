//! Start tags of elements (XML 1.0, section 3.1; Namespaces in XML 1.0).
ghost use Rattle.std.specs.Prelude.{◌≡◌, None, [], map, IfOk, OnOk, option_copied, string_bytes};
ghost use Rattle.dav_resource.specs.Tree.{named_tag, prefixed_element, put_attribute, xmlns_name};
ghost use Rattle.dav_resource.specs.Element.{text_pair};

use crate::Text;
use std::alloc::{AllocError, Global};
use std::collections::BTreeMap;
use std::marker::Model;

/// The names and attributes of an element. In contracts its value is a `Tag`.
#[derive(Drop, Debug)]
pub struct StartTag {
    /// The local name (Namespaces in XML 1.0, section 4).
    pub name: Text,
    /// The namespace prefix of the name, if it has one.
    pub prefix: Option<Text>,
    /// The namespace of the name, if it is known.
    pub namespace: Option<Text>,
    /// The attributes by name, including namespace declarations.
    pub attributes: BTreeMap<String, String>,
}

impl Model for StartTag {
    ghost use Rattle.dav_resource.specs.Tree.{Tag};
    ghost use Rattle.dav_resource.specs.TreeCode.{tag_code};

    ghost Value = { Tag };

    ghost coded = { tag_code };

    ghost use Rattle.dav_resource.specs.Element.{start_tag};

    ghost view = { start_tag };
}

impl StartTag {
    /// Creates a tag of this local name. It has no prefix, namespace or attributes.
    pub fn new(alloc: Global, name: Text) -> StartTag
        ensures { result ≡ named_tag name None }
    {
        StartTag {
            name,
            prefix: None,
            namespace: None,
            attributes: BTreeMap::new(alloc),
        }
    }

    /// Creates a tag from a prefixed name (Namespaces in XML 1.0, section 4). The string is split at the first
    /// `:` into prefix and name. Without a `:` the whole string is the name, and there is no prefix. No
    /// namespace is set. Fails only if memory runs out.
    pub fn prefixed(alloc: Global, text: &str) -> Result<StartTag, AllocError>
        ensures { IfOk result (λ tag. tag ≡ (prefixed_element text.now).tag) }
    {
        let Some((prefix, name)) = text.split_once(':') else {
            return Ok(StartTag::new(alloc, Text::from_str(alloc, text)?));
        };
        let mut tag = StartTag::new(alloc, Text::from_str(alloc, name)?);
        tag.prefix = Some(Text::from_str(alloc, prefix)?);
        Ok(tag)
    }

    /// Declares a namespace under a prefix, or the default namespace for an empty prefix (Namespaces in XML
    /// 1.0, section 3). An existing declaration of the same prefix is replaced. Fails only if memory runs out.
    #[tactic(auto, using(crate::proofs::ElementLemmas::building))]
    pub fn declare(&mut self, alloc: Global, prefix: &str, uri: &str) -> Result<(), AllocError>
        ensures { OnOk result (self.new ≡ record self.old { attributes = put_attribute self.old.attributes (xmlns_name prefix.now) uri.now }) }
    {
        let name = xmlns_name(alloc, prefix)?;
        let value = String::from_str(alloc, uri)?;
        self.attributes.insert(name, value)?;
        Ok(())
    }

    /// Returns a copy. Fails only if memory runs out.
    pub fn clone(&self) -> Result<StartTag, AllocError>
        ensures { IfOk result (λ copy. copy ≡ self.now) }
    {
        Ok(StartTag {
            name: self.name.clone()?,
            prefix: copied(self.prefix.as_ref())?,
            namespace: copied(self.namespace.as_ref())?,
            attributes: copied_attributes(&self.attributes)?,
        })
    }
}

/// Copies an optional string.
fn copied(text: Option<&Text>) -> Result<Option<Text>, AllocError>
    ensures { IfOk result (λ copy. copy ≡ option_copied text.entry) }
{
    match text {
        Some(text) => Ok(Some(text.clone()?)),
        None => Ok(None),
    }
}

/// Copies attributes.
#[tactic(auto, using(crate::proofs::ElementLemmas::walking))]
fn copied_attributes(
    attributes: &BTreeMap<String, String>,
) -> Result<BTreeMap<String, String>, AllocError>
    ensures { IfOk result (λ copy. map text_pair copy.entries ≡ map text_pair attributes.now.entries) }
{
    attributes.clone()
}

/// The name of the attribute that declares a namespace under this prefix.
fn xmlns_name(alloc: Global, prefix: &str) -> Result<String, AllocError>
    ensures { IfOk result (λ name. string_bytes name ≡ xmlns_name prefix.now) }
{
    let mut name = String::from_str(alloc, "xmlns")?;
    if !prefix.is_empty() {
        name.push(':')?;
        name.push_str(prefix)?;
    }
    Ok(name)
}
