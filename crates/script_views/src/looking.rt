//! What the lines of a script say, looked up line by line.

use action_script::forms::form::Form;
use action_script::forms::script::Line;
use caa_base::written::entry::OutOfMemory;
use std::alloc::Global;

/// The name of the graph or the action that a line begins.
pub fn begins_block(form: &Form) -> Option<u32> {
    if let Form::Graph(name) | Form::Action(name) = form {
        Some(*name)
    } else {
        None
    }
}

/// The lines of the block that is open after these, from the one that opens it on; none at the top.
pub fn open_block(lines: &[Line]) -> &[Line] {
    let mut block: &[Line] = &[];
    for (index, line) in lines.iter().enumerate() {
        if begins_block(&line.form).is_some() {
            block = lines.get(index..).unwrap_or(&[]);
        } else if let Form::End = &line.form {
            block = &[];
        }
    }
    block
}

/// The lines up to the first `end`.
fn up_to_end(lines: &[Line]) -> &[Line] {
    for (index, line) in lines.iter().enumerate() {
        if matches!(&line.form, Form::End) {
            return lines.get(..index).unwrap_or(lines);
        }
    }
    lines
}

/// The lines of a graph, without its `end`; none where there is no such graph.
pub fn graph_block(lines: &[Line], name: u32) -> &[Line] {
    for (index, line) in lines.iter().enumerate() {
        if matches!(&line.form, Form::Graph(graph) if *graph == name) {
            return up_to_end(lines.get(index..).unwrap_or(&[]));
        }
    }
    &[]
}

/// The lines of an action, without its `end`; none where there is no such action.
pub fn action_block(lines: &[Line], name: u32) -> &[Line] {
    for (index, line) in lines.iter().enumerate() {
        if matches!(&line.form, Form::Action(action) if *action == name) {
            return up_to_end(lines.get(index..).unwrap_or(&[]));
        }
    }
    &[]
}

/// The number of the first line of these, or 0.
pub fn first_line(block: &[Line]) -> u32 {
    match block.first() {
        Some(line) => line.number,
        None => 0,
    }
}

/// The name of the graph or the action that these lines open.
pub fn block_name(block: &[Line]) -> Option<u32> {
    begins_block(&block.first()?.form)
}

/// The roles of an action.
pub fn roles_of(block: &[Line]) -> &[u32] {
    for line in block {
        if let Form::Roles(roles) = &line.form {
            return roles.as_slice();
        }
    }
    &[]
}

/// The objects of an action.
pub fn objects_of(block: &[Line]) -> &[u32] {
    for line in block {
        if let Form::Uses(objects) = &line.form {
            return objects.as_slice();
        }
    }
    &[]
}

/// The internal graph that an action names.
pub fn internal_of(block: &[Line]) -> Option<u32> {
    for line in block {
        if let Form::Internal(graph) = &line.form {
            return Some(*graph);
        }
    }
    None
}

/// The line of an action that names its internal graph.
pub fn internal_line(block: &[Line]) -> Option<u32> {
    for line in block {
        if matches!(&line.form, Form::Internal(_)) {
            return Some(line.number);
        }
    }
    None
}

/// The line of an action that names its interface graph.
pub fn interface_line(block: &[Line]) -> Option<u32> {
    for line in block {
        if matches!(&line.form, Form::Interface(_)) {
            return Some(line.number);
        }
    }
    None
}

/// The line of an action that names its objects.
pub fn use_line(block: &[Line]) -> Option<u32> {
    for line in block {
        if matches!(&line.form, Form::Uses(_)) {
            return Some(line.number);
        }
    }
    None
}

/// The action of a nested use of this name.
pub fn nested_action(block: &[Line], nest: u32) -> Option<u32> {
    for line in block {
        if let Form::Nest(name, action, _) = &line.form {
            if *name == nest {
                return Some(*action);
            }
        }
    }
    None
}

/// The roles that fill a nested use of this name.
pub fn nest_roles(block: &[Line], nest: u32) -> &[u32] {
    for line in block {
        if let Form::Nest(name, _, roles) = &line.form {
            if *name == nest {
                return roles.as_slice();
            }
        }
    }
    &[]
}

/// The exceptions of a graph that has these lines; `universal`, which has no line, isn't among them.
pub fn exceptions_of(alloc: Global, block: &[Line]) -> Result<Vec<u32>, OutOfMemory> {
    let mut names = Vec::new(alloc);
    for line in block {
        if let Form::Exception(name) = &line.form {
            names.push(*name)?;
        }
    }
    Ok(names)
}

/// The nested uses that a role fills, in their order.
pub fn filled_by(alloc: Global, block: &[Line], role: u32) -> Result<Vec<u32>, OutOfMemory> {
    let mut nests = Vec::new(alloc);
    for line in block {
        if let Form::Nest(nest, _, roles) = &line.form {
            if roles.as_slice().contains(&role) {
                nests.push(*nest)?;
            }
        }
    }
    Ok(nests)
}

/// The nested uses that the body of a role enters, in order.
pub fn entered_by(alloc: Global, block: &[Line], role: u32) -> Result<Vec<u32>, OutOfMemory> {
    let mut nests = Vec::new(alloc);
    let mut is_inside = false;
    for line in block {
        if let Form::Body(name) = &line.form {
            is_inside = *name == role;
        }
        if let Form::EnterStep(nest) = &line.form {
            if is_inside {
                nests.push(*nest)?;
            }
        }
    }
    Ok(nests)
}

/// The number of the line that begins the body of a role.
pub fn body_line(block: &[Line], role: u32) -> Option<u32> {
    for line in block {
        if matches!(&line.form, Form::Body(name) if *name == role) {
            return Some(line.number);
        }
    }
    None
}
