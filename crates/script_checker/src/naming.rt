//! As what a name is declared where a line stands.

ghost use Rattle.std.specs.Prelude.{◌≡◌};

use crate::action::named::{face_of, is_inner, is_outer};
use crate::declared::{Block, SoFar};
use crate::lookups::{has_exception, is_action};
use action_script::forms::uses::Declares;
use action_script::lines::sort::Sort;

impl Declares for SoFar {
    ghost use Rattle.script_checker.specs.Causes.{is_declared};

    ghost declares = { λ s. is_declared s.declared s.block };

    fn has(&self, sort: Sort, name: u32) -> bool {
        let declared = &self.declared;
        match (sort, &self.block) {
            (Sort::Participant, _) => declared.participants.contains(name),
            (Sort::Object, _) => declared.objects.contains(name),
            (Sort::Graph, _) => declared.graph_names.contains(name),
            (Sort::Action, _) => is_action(declared, name),
            (Sort::Role, Block::Action(action)) => action.roles.contains(name),
            (Sort::Nest, Block::Action(action)) => action.nest_names.contains(name),
            (Sort::Own, Block::Graph(graph)) => graph.exceptions().contains(name),
            (Sort::Inner, Block::Action(action)) => is_inner(declared, action, name),
            (Sort::Outer, Block::Action(action)) => is_outer(declared, action, name),
            (Sort::Told(nest), Block::Action(action)) => {
                has_exception(declared, face_of(declared, action, nest), name)
            }
            (Sort::Own, Block::Top | Block::Action(_)) => false,
            (
                Sort::Role | Sort::Nest | Sort::Inner | Sort::Outer | Sort::Told(_),
                Block::Top | Block::Graph(_),
            ) => false,
        }
    }
}
