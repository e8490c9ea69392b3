//! The engine: executes WebDAV requests against any store and lock system that keep their contracts.
#![tactic(auto)]

mod copy;
mod delete;
mod inner;
mod judge;
mod location;
mod lock;
mod lock_calls;
mod lock_info;
mod lock_reply;
mod machine;
mod mkcol;
mod opening;
mod options;
mod propfind;
mod proppatch;
mod put;
mod put_reply;
mod refresh;
mod rename;
mod target;
mod transfer;
mod unlock;

pub use dav_find::{AskedProperty, FindKind, Finder, Found, Search, declare_prefixes, read_search};
pub use dav_headers::{
    ContentRange, IfCondition, IfItem, IfList, UpdateRange, read_checksum, read_content_length,
    read_content_range, read_content_type, read_depth, read_destination,
    read_expected_entity_length, read_if, read_if_match, read_if_none_match, read_lock_token,
    read_overwrite, read_place, read_tagged_path, read_update_range,
};
pub use dav_live::{LiveProperty, Viewer, is_microsoft, live_element};
pub use dav_messages::{
    MultiError, build_lock_prop, dav_if_match, etaglist_match, http_if_match, if_match,
    if_match_get_tokens, ifrange_match, list_lockdiscovery, list_supportedlock, multi_error,
};
pub use dav_props::{
    PropWriter, PropertyChange, bare_element, element_to_davprop, element_to_davprop_full,
    group_by_status, is_kept, liveprop_remove, liveprop_set, patches, read_update, report_failed,
    report_made, some_refused,
};
pub use dav_resource::{
    Body, BodyNumber, ChildElements, DavError, DavFile, DavMethod, DavMethodSet, DavPath, DavProp,
    DavRequest, DavResult, Depth, DirEntry, ETag, ETagList, Element, FsError, FsResult, IfRange,
    Items, LockToken, Meta, Op, OpenOptions, Outcome, Paths, Profile, PropertyPatch, Record,
    ReqBody, SharedElement, StartTag, Text, XMLNode,
};
pub use dav_store::{DavLock, DavLockSystem, GuardedFileSystem, LockError};
pub use dav_walks::{CopyTask, Resource, delete_items};
pub use inner::DavInner;
pub use lock::get_timeout;
