//! The headers If-Match and If-None-Match.
ghost use Rattle.std.specs.Prelude.{◌≡◌, Some, Ok, IfOk, IfSome, codes, flat_map, option_map};
ghost use Rattle.std.specs.List.{list_any};
ghost use Rattle.http_header.specs.Token.{lowercase};
ghost use Rattle.http_header.specs.HeaderMap.{get_all};
ghost use Rattle.dav_resource.specs.Gives.{GivesBy};
ghost use Rattle.dav_headers.specs.TagList.{drop_separators, first_listed, tags_of, is_star, value_tags, tag_list_of, if_match_of, if_none_match_of};
ghost use Rattle.dav_headers.specs.TagGrammar.{SpellsTagList};
ghost use Rattle.dav_resource.specs.declared.etag.ETagList.{ETagList};

use crate::tag::{BorrowedTag, first_tag};
use crate::text::{after_first, drop_blanks};
use crate::values::{first_value, readable_text};
use dav_resource::{DavResult, ETag, ETagList, Items};
use http_header::{HeaderMap, HeaderValue};
use std::alloc::{AllocError, Global};

/// The string without the blanks and commas at its front.
fn drop_separators(text: &str) -> &str
    ensures { result.now ≡ drop_separators text.now }
{
    let mut rest = text;
    while rest.starts_with(' ') || rest.starts_with('\t') || rest.starts_with(',') {
        rest = after_first(rest);
    }
    rest
}

/// The tag that the string begins with, if a comma or the end follows it, and the string from the next
/// element that is not empty.
fn first_listed(text: &str) -> Option<(BorrowedTag<'_>, &str)>
    ensures { option_map (λ found. (record { weak = found.0.weak; tag = found.0.text.now }, found.1.now)) result ≡ first_listed text.now }
{
    let (tag, rest) = first_tag(text)?;
    let rest = drop_blanks(rest);
    if rest.is_empty() || rest.starts_with(',') {
        return Some((tag, drop_separators(rest)));
    }
    None
}

/// Parses a string as a list of tags, which may be empty. Returns `None` if it is malformed. Fails only if
/// memory runs out.
fn tags_of(alloc: Global, text: &str) -> Result<Option<Vec<ETag>>, AllocError>
    ensures { IfOk result (λ found. option_map (λ tags. tags.items) found ≡ tags_of text.now) }
{
    let mut tags = Vec::new(alloc);
    let mut rest = drop_separators(text);
    while !rest.is_empty() {
        let Some((tag, after)) = first_listed(rest) else {
            return Ok(None);
        };
        let tag = tag.to_tag(alloc)?;
        tags.push(tag)?;
        rest = after;
    }
    Ok(Some(tags))
}

/// Whether the value is `*`, except for blanks at its ends.
fn is_star(value: &HeaderValue) -> bool
    ensures { result ≡ is_star value.now }
{
    readable_text(value).is_some_and(|text| text == "*")
}

/// The tags of a value. A value that cannot be parsed has none. Fails only if memory runs out.
fn value_tags(alloc: Global, value: &HeaderValue) -> Result<Vec<ETag>, AllocError>
    ensures { IfOk result (λ tags. tags.items ≡ value_tags value.now) }
{
    if let Some(text) = readable_text(value) {
        if let Some(tags) = tags_of(alloc, text)? {
            return Ok(tags);
        }
    }
    Ok(Vec::new(alloc))
}

/// Whether one of the values of a header is `*`.
fn has_star(headers: &HeaderMap<HeaderValue>, name: &'static str) -> bool
    ensures { result ≡ list_any is_star (get_all headers.now (lowercase name.now)) }
{
    headers.get_all(name).iter().any(is_star)
}

/// The tags of all values of a header, in order. Fails only if memory runs out.
fn all_tags(
    alloc: Global,
    headers: &HeaderMap<HeaderValue>,
    name: &'static str,
) -> Result<Vec<ETag>, AllocError>
    ensures { IfOk result (λ tags. tags.items ≡ flat_map value_tags (get_all headers.now (lowercase name.now))) }
{
    let mut tags = Vec::new(alloc);
    for value in headers.get_all(name) {
        let mut more = value_tags(alloc, value)?;
        tags.append(&mut more)?;
    }
    Ok(tags)
}

/// `*` if one of the values of a header, by its name in lower case, is `*`, otherwise the tags of all its
/// values. Returns `None` if there are none.
#[tactic(auto, using(crate::proofs::TagListLemmas::some_tags_cases))]
fn tag_list_of(
    alloc: Global,
    headers: &HeaderMap<HeaderValue>,
    name: &'static str,
) -> DavResult<Option<ETagList>>
    requires { lowercase name.now ≡ name.now }
    ensures { GivesBy (λ tags. tags) result (Ok (tag_list_of (get_all headers.now (lowercase name.now)))) }
{
    if first_value(headers, name).is_none() {
        return Ok(None);
    }
    if has_star(headers, name) {
        return Ok(Some(ETagList::Star));
    }
    let tags = all_tags(alloc, headers, name)?;
    if tags.is_empty() {
        return Ok(None);
    }
    Ok(Some(ETagList::Tags(Items::from_vec(tags))))
}

/// Reads If-Match (RFC 7232, section 3.1): `*` if one of its values is `*`, otherwise the entity tags of all
/// its values, in order. A value that cannot be parsed counts as absent. Returns `None` if there are no tags.
///
/// The only error is `Memory`.
pub fn read_if_match(alloc: Global, headers: &HeaderMap<HeaderValue>) -> DavResult<Option<ETagList>>
    ensures value { GivesBy (λ tags. tags) result (Ok (if_match_of headers.now)) }
    ensures found { IfOk result (λ found. IfSome found (SpellsTagList (get_all headers.now (codes "if-match")))) }
    ensures complete { (tags : ETagList) → SpellsTagList (get_all headers.now (codes "if-match")) tags → IfOk result (λ found. found ≡ Some tags) }
{
    tag_list_of(alloc, headers, "if-match")
}

/// Reads If-None-Match (RFC 7232, section 3.2), as If-Match is read.
///
/// The only error is `Memory`.
pub fn read_if_none_match(
    alloc: Global,
    headers: &HeaderMap<HeaderValue>,
) -> DavResult<Option<ETagList>>
    ensures value { GivesBy (λ tags. tags) result (Ok (if_none_match_of headers.now)) }
    ensures found { IfOk result (λ found. IfSome found (SpellsTagList (get_all headers.now (codes "if-none-match")))) }
    ensures complete { (tags : ETagList) → SpellsTagList (get_all headers.now (codes "if-none-match")) tags → IfOk result (λ found. found ≡ Some tags) }
{
    tag_list_of(alloc, headers, "if-none-match")
}
