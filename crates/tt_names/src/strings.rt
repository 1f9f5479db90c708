//! The strings of a table `post` of version 2.0 (OpenType specification, `post`, "Version 2.0").

ghost use Rattle.std.specs.Prelude.{◌≡◌, ℕ, ◌+◌, ◌^◌, ◌<◌, ◌≤◌, IfNone, IfSome, IfOk, length, vec_len};
ghost use Rattle.tt_names.specs.Post.{string_at, string_end, string_place};
ghost use Rattle.tt_names.specs.Representation.StringPlaces.{ListsAll, ListsPlaces};

use crate::post::strings_start;
use std::alloc::{AllocError, Global};

/// How many strings can be named, by the indices from 258 to 65,535.
const STRINGS: u32 = 65_278;

/// Returns the offset after the string at an offset, if all its bytes are there.
fn string_end(post: &[u8], place: usize) -> Option<usize>
    requires { length post.now < 2 ^ 32 }
    ensures there { IfSome result (λ end. end ≡ string_end post.now place) }
    ensures within { IfSome result (λ end. end ≤ length post.now) }
    ensures none { IfNone result (length post.now < string_end post.now place) }
{
    let len = *post.get(place)?;
    let end = place + 1 + usize::from(len);
    (end <= post.len()).then_some(end)
}

/// Returns the offset of each string whose bytes are all there and that can be named.
pub(crate) fn string_places(alloc: Global, post: &[u8]) -> Result<Vec<u32>, AllocError>
    requires start { 34 ≤ length post.now }
    requires small { length post.now < 2 ^ 32 }
    ensures places { IfOk result (λ places. ListsPlaces post.now places.items) }
    ensures all { IfOk result (λ places. ListsAll post.now places.items) }
{
    let mut places = Vec::new(alloc);
    let mut place = strings_start(post);
    for _ in 0..STRINGS {
        let Some(end) = string_end(post, place) else {
            return Ok(places);
        };
        places.push(place as u32)?;
        place = end;
    }
    Ok(places)
}

/// Returns the bytes of the string at an offset.
#[tactic(auto, unfolding(crate::specs::Post::string_at))]
pub(crate) fn string_from(post: &[u8], place: usize) -> &[u8]
    requires { string_end post.now place ≤ length post.now }
    ensures { Some result.now ≡ string_at post.now place }
{
    let start = place + 1;
    &post[start..start + usize::from(post[place])]
}
