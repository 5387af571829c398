ghost use Rattle.std.specs.Prelude.{◌<◌, ◌∷◌, IfSome};
ghost use Rattle.cover_table.specs.Cover.{IsLeastCover};
ghost use Rattle.core_words.specs.Joining.{as_list};

use caa_base::written::entry::Exception;
use exception_graph::Graph;

/// The least exception that covers this one and, where there is one, the cover so far.
pub fn joined(graph: &Graph, cover: Option<Exception>, exception: Exception) -> Exception
    requires known { exception < graph.now.count }
    requires covered { IfSome cover (λ x. x < graph.now.count) }
    ensures { IsLeastCover graph.now (exception ∷ as_list cover) result }
{
    match cover {
        Some(cover) => graph.least(&[exception, cover]),
        None => graph.least(&[exception]),
    }
}
