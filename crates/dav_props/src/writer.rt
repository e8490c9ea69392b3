//! Builds the body of a response that reports the properties of resources.
ghost use Rattle.std.specs.Prelude.{◌≡◌, ◌∷◌, [], codes, Ok, IfOk, IfErr, OnOk, OnErr};
ghost use Rattle.dav_resource.specs.declared.error.DavError.TheVariants.{Memory};
ghost use Rattle.dav_resource.specs.Tree.{with_attribute, xmlns_name};
ghost use Rattle.dav_messages.specs.DavElement.{with_elements};
ghost use Rattle.dav_messages.specs.Reply.{reply_of};
ghost use Rattle.dav_messages.specs.ReplyHeader.{HasRoomFor};
ghost use Rattle.dav_props.specs.Groups.{groups_of, AreStatuses};
ghost use Rattle.dav_props.specs.Propstat.{property_response as response_of_groups, property_multistatus, begun_in};

use crate::propstat::property_response;
use dav_messages::{add_xml_type, declaring_element};
use dav_resource::{Body, DavPath, DavResult, Element, ElementName, Profile};
use http::{Response, StatusCode};
use std::alloc::Global;
use std::collections::BTreeMap;

/// Writes the XML of a 207, with one `response` for the properties of each resource (RFC 4918, section 13).
#[derive(Drop, Debug)]
pub struct PropWriter {
    tree: Element,
}

impl PropWriter {
    /// Creates a writer without a `response`. Sets the status of `res` to 207 and appends the header field
    /// `content-type`, which the caller ensures is not set yet, as for `add_header`. The only error is
    /// `Memory`, and then `res` is unchanged.
    pub fn new(alloc: Global, profile: Profile, res: &mut Response<Body>) -> DavResult<PropWriter>
        requires { HasRoomFor (reply_of res.old).headers (codes "content-type") }
        ensures empty { IfOk result (λ writer. writer.tree ≡ property_multistatus []) }
        ensures reply { OnOk result (reply_of res.new ≡ begun_in profile (reply_of res.old)) }
        ensures unwritten { OnErr result (reply_of res.new ≡ reply_of res.old) }
        ensures err { IfErr result (λ e. e ≡ Memory) }
    {
        let tree = declaring_element(alloc, ElementName::Multistatus)?;
        add_xml_type(res.headers_mut(), profile)?;
        *res.status_mut() = StatusCode::MULTI_STATUS;
        Ok(PropWriter { tree })
    }

    /// Returns the writer with one more prefix declared (Namespaces in XML 1.0, section 3). The only error is
    /// `Memory`.
    pub fn declare(self, prefix: &str, namespace: &str) -> DavResult<PropWriter>
        ensures declared { IfOk result (λ writer. writer.tree ≡ with_attribute self.tree (xmlns_name prefix.now) namespace.now) }
        ensures err { IfErr result (λ e. e ≡ Memory) }
    {
        Ok(PropWriter {
            tree: self.tree.ns(prefix, namespace)?,
        })
    }

    /// Writes one more `response`: a resource's path, and its properties grouped by status, the least status
    /// first (RFC 4918, section 14.24). The caller ensures that the keys of `props` are status codes. The only
    /// error is `Memory`, and then nothing was written.
    pub fn write_propresponse(
        &mut self,
        profile: Profile,
        path: &DavPath,
        props: BTreeMap<u16, Vec<Element>>,
    ) -> DavResult<()>
        requires { AreStatuses props }
        ensures written { OnOk result (self.new.tree ≡ with_elements self.old.tree (response_of_groups profile path.now (groups_of props) ∷ [])) }
        ensures unwritten { OnErr result (self.new.tree ≡ self.old.tree) }
        ensures err { IfErr result (λ e. e ≡ Memory) }
    {
        let alloc = *self.tree.children.allocator();
        let response = property_response(alloc, profile, path, props)?;
        self.tree.push_element(response)?;
        Ok(())
    }

    /// Does nothing: `close` returns the tree as a whole.
    pub fn flush(&mut self) -> DavResult<()>
        ensures ok { result ≡ Ok tt }
        ensures same { self.new.tree ≡ self.old.tree }
    {
        Ok(())
    }

    /// Returns the tree with each `response` that was written.
    pub fn close(self) -> DavResult<Element>
        ensures { result ≡ Ok self.tree }
    {
        Ok(self.tree)
    }
}
