//! The header If (RFC 4918, section 10.4).
ghost use Rattle.std.specs.Prelude.{◌≡◌, List, false, Some, Ok, IfOk, IfSome, option_map};
ghost use Rattle.dav_resource.specs.Gives.{GivesBy};
ghost use Rattle.dav_headers.specs.IfHeader.{item_of, conditions_of, first_list, lists_of, if_lists, if_of};
ghost use Rattle.dav_headers.specs.IfGrammar.{IfHeaderSpells};
ghost use Rattle.dav_headers.specs.declared.if_header.IfList.{IfList};

use crate::if_token::{IfToken, tokens_of};
use crate::values::first_text;
use dav_resource::{DavResult, ETag, Items, Text};
use http_header::{HeaderMap, HeaderValue};
use std::alloc::Global;
use std::collections::VecDeque;

/// What a condition tests.
#[derive(Drop, Debug)]
pub enum IfItem {
    /// A state token, such as a lock token.
    StateToken(Text),
    /// An entity tag.
    ETag(ETag),
}

/// One condition of a list.
#[derive(Drop, Debug)]
pub struct IfCondition {
    /// Whether `Not` precedes the condition.
    pub not: bool,
    /// What the condition tests.
    pub item: IfItem,
}

/// One list of conditions. It is true if all its conditions are (RFC 4918, section 10.4.2). It applies to the
/// resource that the tag right before it names. Without a tag it applies to the same resource as the list
/// before it, or to the path of the request if no tag came before.
#[derive(Drop, Debug)]
pub struct IfList {
    /// The resource tag right before the list, as written between `<` and `>`, if there is one.
    pub resource_tag: Option<Text>,
    /// The conditions, in order.
    pub conditions: Items<IfCondition>,
}

/// What a condition with this token tests. Returns `None` if the token is not a condition.
fn item_of(token: IfToken) -> Option<IfItem>
    ensures { result ≡ item_of token }
{
    match token {
        IfToken::Angle(text) | IfToken::Word(text) => Some(IfItem::StateToken(text)),
        IfToken::Bracket(tag) => Some(IfItem::ETag(tag)),
        IfToken::Open | IfToken::Close | IfToken::Not => None,
    }
}

/// Takes the conditions of a list, up to and including its `)`. Returns `None` if the tokens do not begin
/// with those. Some tokens may then have been taken.
fn conditions_of(
    alloc: Global,
    tokens: &mut VecDeque<IfToken>,
) -> DavResult<Option<Items<IfCondition>>>
    ensures { GivesBy (option_map (λ conditions. (conditions, tokens.new.items))) result (Ok (conditions_of false tokens.old.items)) }
{
    let mut conditions = Vec::new(alloc);
    let mut not = false;
    while let Some(token) = tokens.pop_front() {
        match token {
            IfToken::Close if !not => return Ok(Some(Items::from_vec(conditions))),
            IfToken::Not if !not => not = true,
            token => {
                let Some(item) = item_of(token) else {
                    return Ok(None);
                };
                conditions.push(IfCondition { not, item })?;
                not = false;
            }
        }
    }
    Ok(None)
}

/// Takes a list, with the tag right before it if there is one. Returns `None` if the tokens do not begin with
/// a list. Some tokens may then have been taken.
fn first_list(alloc: Global, tokens: &mut VecDeque<IfToken>) -> DavResult<Option<IfList>>
    ensures { GivesBy (option_map (λ list. (list, tokens.new.items))) result (Ok (first_list tokens.old.items)) }
{
    let (resource_tag, open) = match tokens.pop_front() {
        Some(IfToken::Angle(text)) => (Some(text), tokens.pop_front()),
        token => (None, token),
    };
    let Some(IfToken::Open) = open else {
        return Ok(None);
    };
    match conditions_of(alloc, tokens)? {
        Some(conditions) => Ok(Some(IfList {
            resource_tag,
            conditions,
        })),
        None => Ok(None),
    }
}

/// Parses the tokens into lists. Returns `None` if they are not one or more lists.
fn lists_of(alloc: Global, mut tokens: VecDeque<IfToken>) -> DavResult<Option<Items<IfList>>>
    ensures { GivesBy (λ lists. lists) result (Ok (lists_of tokens.items)) }
{
    let mut lists = Vec::new(alloc);
    while !tokens.is_empty() {
        let Some(list) = first_list(alloc, &mut tokens)? else {
            return Ok(None);
        };
        lists.push(list)?;
    }
    if lists.is_empty() {
        return Ok(None);
    }
    Ok(Some(Items::from_vec(lists)))
}

/// Parses a string into lists. Returns `None` if it is malformed.
fn if_lists(alloc: Global, text: &str) -> DavResult<Option<Items<IfList>>>
    ensures { GivesBy (λ lists. lists) result (Ok (if_lists text.now)) }
{
    match tokens_of(alloc, text)? {
        Some(tokens) => lists_of(alloc, tokens),
        None => Ok(None),
    }
}

/// Reads If (RFC 4918, section 10.4): the lists of its first value, in order. Returns `None` if there is no
/// such header, or its first value is not readable or malformed. Each list has only the resource tag right
/// before it, so a tag that applies to several lists is in the first of them.
///
/// Time and memory are proportional to the length of the value.
///
/// The only error is `Memory`.
pub fn read_if(alloc: Global, headers: &HeaderMap<HeaderValue>) -> DavResult<Option<Items<IfList>>>
    ensures value { GivesBy (λ lists. lists) result (Ok (if_of headers.now)) }
    ensures found { IfOk result (λ found. IfSome found (IfHeaderSpells headers.now)) }
    ensures complete { (lists : List IfList) → IfHeaderSpells headers.now lists → IfOk result (λ found. found ≡ Some lists) }
{
    match first_text(headers, "if") {
        Some(text) => if_lists(alloc, text),
        None => Ok(None),
    }
}
