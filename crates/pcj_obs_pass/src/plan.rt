ghost use Rattle.std.specs.Prelude.{◌≡◌, [], ◌∷◌, IfOk};
ghost use Rattle.pcj_encode.specs.declared.key_name.KeyName.TheVariants as row;
ghost use Rattle.pcj_encode.specs.Name.{key_of};
ghost use Rattle.pcj_notify.specs.declared.ask.Ask.{Ask};
ghost use Rattle.pcj_notify.specs.Plans.{finish, result_writes, unless_found};
ghost use Rattle.pcj_obs_pass.specs.Plan.{IsPassAsk, IsResultAsk};

use crate::cells::cells_at;
use crate::nodes::node_at;
use pcj_encode::{KeyName, TaskName, write_key};
use pcj_notify::{Answer, Ask, Task, with_result};
use pcj_table::Write;
use pcj_term::{Bytes, Items, Memory, TryClone};
use pcj_tree::{NodeKind, Tree};
use std::alloc::Global;

/// What is asked next for the task of a row below a projection, by the tree of the row's registration and the answers so far: the
/// parent's row, and then one transaction that ends the task and adds that row with the task of its export, where it isn't there.
/// `Memory` where there is none left for the ask.
pub fn plan_pass(
    alloc: Global,
    task: &Task,
    tree: &Tree,
    answers: &Items<Answer>,
) -> Result<Ask, Memory>
    requires { (ask : Ask) × IsPassAsk task.now tree.now answers.now ask }
    ensures { IfOk result (λ ask. IsPassAsk task.now tree.now answers.now ask) }
{
    match &task.name {
        TaskName::Row {
            registration,
            node,
            cells,
        } => {
            let nodes = tree.nodes.as_slice();
            let child = node_at(nodes, *node);
            let parent = node_at(nodes, child.parent);
            match &parent.kind {
                NodeKind::Project { .. } => {
                    let order = child.order.as_slice();
                    let cells = cells_at(alloc, order, cells.as_slice(), parent.order.as_slice())?;
                    plan_result(alloc, task, *registration, child.parent, &cells, answers)
                }
                _ => unreachable!(),
            }
        }
        _ => unreachable!(),
    }
}

/// What is asked next for a task that is to add a row of a query's last node.
fn plan_result(
    alloc: Global,
    task: &Task,
    registration: u64,
    node: u16,
    cells: &Items<Bytes>,
    answers: &Items<Answer>,
) -> Result<Ask, Memory>
    requires { (ask : Ask) × IsResultAsk task.now registration node cells.now answers.now ask }
    ensures { IfOk result (λ ask. IsResultAsk task.now registration node cells.now answers.now ask) }
{
    match answers.as_slice() {
        [] => Ok(Ask::Get(node_key(alloc, registration, node, cells)?)),
        [Answer::Got(None)] => {
            let end = end_of(alloc, task)?;
            let writes = with_result(alloc, end, registration, node, cells)?;
            Ok(Ask::Commit(writes))
        }
        [Answer::Got(Some(_))] => Ok(Ask::Commit(end_of(alloc, task)?)),
        _ => unreachable!(),
    }
}

/// The write that ends the task, alone.
fn end_of(alloc: Global, task: &Task) -> Result<Items<Write>, Memory>
    ensures { IfOk result (λ writes. writes ≡ finish task.now ∷ []) }
{
    let mut writes = Items::new(alloc);
    writes.push(task.finish(alloc)?)?;
    Ok(writes)
}

/// The key of a node's row.
fn node_key(
    alloc: Global,
    registration: u64,
    node: u16,
    cells: &Items<Bytes>,
) -> Result<Bytes, Memory>
    ensures { IfOk result (λ key. key ≡ key_of (row.Node registration node cells.now)) }
{
    let cells = cells.try_clone(alloc)?;
    key_of(
        alloc,
        KeyName::Node {
            registration,
            node,
            cells,
        },
    )
}

/// The key of the row of this name, which is let go.
fn key_of(alloc: Global, name: KeyName) -> Result<Bytes, Memory>
    ensures { IfOk result (λ key. key ≡ key_of name) }
{
    write_key(alloc, &name)
}
