//! What the requests and responses of several methods share: the conditions and the body of a request, and in
//! a response the statuses of several resources, the XML of locks and the header fields.
#![tactic(auto)]

mod conditional;
mod dav_element;
mod if_header;
mod lock_tree;
mod lookup;
mod multierror;
mod multistatus;
mod reply_header;
mod request_body;

pub use conditional::{
    dav_if_match, etaglist_match, http_if_match, if_match, if_match_get_tokens, ifrange_match,
};
pub use dav_element::{declaring_element, href_element, is_named, text_element};
pub use lock_tree::{
    build_lock_prop, list_lockdiscovery, list_supportedlock, lock_prop, lockdiscovery, timeout_text,
};
pub use lookup::look_up;
pub use multierror::{MultiError, multi_error};
pub use multistatus::{add_xml_type, status_element, status_line, xml_headers};
pub use reply_header::{add_header, header_value};
pub use request_body::{body_length, is_empty_body};
