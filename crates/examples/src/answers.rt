//! Answers that are written as JSON with expressions in it.
ghost use Rattle.miniserde.specs.Normal.{norm};
ghost use Rattle.miniserde.specs.Tree.{list, members, member, no_members, no_trees, nonneg, null, str, tree, truth};
ghost use Rattle.miniserde.specs.Values.{content_of, tree_of};
ghost use Rattle.miniserde.specs.declared.error.Error.TheVariants.{Memory};
ghost use Rattle.std.specs.Prelude.{◌≡◌, codes, length, true, string_bytes, IfOk, OnErr, IsErrOf};

// A file with clauses names `json::Value` by this path: after a `use` of `Value` itself the check refuses each clause.
use miniserde::{Result, json, value};
use std::alloc::Global;

/// Answers with a page of a paid order, a text among other texts, no note, what was found, and the name of the next page.
pub fn page(
    alloc: Global,
    id: u64,
    text: &str,
    found: json::Value,
    next: String,
) -> Result<json::Value>
    ensures ok { IfOk result (λ v. tree_of v
        ≡ members (member (codes "found") (norm (content_of found)) (member (codes "id") (nonneg id)
        (member (codes "next") (str (string_bytes next)) (member (codes "note") null (member (codes "paid") (truth true)
        (member (codes "tags") (list (tree (str (codes "new")) (tree (str text.now) no_trees))) no_members))))))) }
    ensures memory { OnErr result (IsErrOf result Memory) }
{
    value!(in alloc; {
        "paid": true, "id": id, "tags": ["new", text], "note": null, "found": found, "next": next
    })
}

/// Answers with an item of each form: null, an array, an object, an expression.
pub fn each_item(alloc: Global, text: &str) -> Result<json::Value>
    ensures ok { IfOk result (λ v. tree_of v ≡ list (tree null (tree (list (tree (str text.now) no_trees))
        (tree (members (member (codes "text") (str text.now) no_members)) (tree (nonneg (length text.now)) no_trees))))) }
    ensures memory { OnErr result (IsErrOf result Memory) }
{
    value!(in alloc; [null, [text], {"text": text}, text.len()])
}

/// Answers with a member of each form. Three names are given twice: of each the last counts.
pub fn each_member(alloc: Global, text: &str) -> Result<json::Value>
    ensures ok { IfOk result (λ v. tree_of v ≡ members (member (codes "a") (nonneg (length text.now))
        (member (codes "b") (list (tree null no_trees)) (member (codes "c") (members (member (codes "text") (str text.now) no_members))
        (member (codes "d") null no_members))))) }
    ensures memory { OnErr result (IsErrOf result Memory) }
{
    value!(in alloc; {
        "a": [], "b": text.len(), "c": null, "a": text.len(), "b": [null], "c": {"text": text}, "d": null
    })
}
