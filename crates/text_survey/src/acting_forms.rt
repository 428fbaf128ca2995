ghost use Rattle.std.specs.Prelude.{◌≡◌, bytes_eq};
ghost use Rattle.text_survey.specs.ActingForms.{acts_at_top, acts_by_ip, acts_by_isis, acts_by_tunnel, acts_in_isis, acts_in_ospf, acts_on_interface, is_policy};

use ios_lines::words::{Words, is_text};

/// Whether a line at indent 0 is of a form that acts.
pub(crate) fn acts_at_top(words: &Words<'_>) -> bool
    ensures { result ≡ acts_at_top words.now }
{
    words.begins_with_three(b"ip", b"local", b"policy") && words.says(3, b"route-map")
        || words.begins_with_two(b"ip", b"default-network")
        || words.says(0, b"router")
            && !(words.lacks(1) || words.says(1, b"ospf") || words.says(1, b"isis"))
}

/// Whether a line of an interface is.
pub(crate) fn acts_on_interface(words: &Words<'_>) -> bool
    ensures { result ≡ acts_on_interface words.now }
{
    words.says(0, b"ip") && acts_by_ip(words) || acts_by_isis(words) || acts_by_tunnel(words)
}

/// Whether a line of an interface is one of IS-IS that is.
fn acts_by_isis(words: &Words<'_>) -> bool
    ensures { result ≡ acts_by_isis words.now }
{
    words.begins_with_three(b"isis", b"protocol", b"shutdown")
        || words.begins_with_three(b"no", b"isis", b"advertise") && words.says(3, b"prefix")
}

/// Whether a line of an interface is one of a tunnel that is.
fn acts_by_tunnel(words: &Words<'_>) -> bool
    ensures { result ≡ acts_by_tunnel words.now }
{
    words.begins_with_three(b"tunnel", b"mpls", b"traffic-eng")
        && words.says(3, b"autoroute")
        && words.says(4, b"announce")
}

/// Whether a line of an interface that begins with `ip` is.
fn acts_by_ip(words: &Words<'_>) -> bool
    ensures { result ≡ acts_by_ip words.now }
{
    words.says(1, b"policy") && words.says(2, b"route-map")
        || words.says(1, b"ospf")
            && (words.says(2, b"prefix-suppression")
                || words.says(2, b"database-filter")
                || words.says(2, b"multi-area")
                || words.says(2, b"shutdown"))
        || words.says(1, b"access-group")
        || words.says(1, b"verify") && words.says(2, b"unicast")
        || words.says(1, b"nat")
}

/// Whether a line of `router ospf` is.
pub(crate) fn acts_in_ospf(words: &Words<'_>) -> bool
    ensures { result ≡ acts_in_ospf words.now }
{
    words.says(0, b"prefix-suppression")
        || words.begins_with_two(b"no", b"discard-route")
        || words.says(0, b"discard-route") && !words.lacks(2)
        || words.says(0, b"neighbor")
            && (words.says(2, b"database-filter") || words.says(2, b"cost"))
        || words.begins_with_three(b"mpls", b"ldp", b"sync")
        || words.says(0, b"table-map")
}

/// Whether a line of `router isis` is.
pub(crate) fn acts_in_isis(words: &Words<'_>) -> bool
    ensures { result ≡ acts_in_isis words.now }
{
    words.begins_with_two(b"protocol", b"shutdown")
        || words.begins_with_three(b"mpls", b"ldp", b"sync")
        || words.begins_with_two(b"set-attached-bit", b"route-map")
        || words.says(0, b"distance") && !words.lacks(3)
        || words.says(0, b"table-map")
}

/// Whether a word names a policy of routes.
pub(crate) fn is_policy(word: &[u8]) -> bool
    ensures { result ≡ is_policy word.now }
{
    is_text(word, b"route-map") || is_text(word, b"prefix-list")
}
