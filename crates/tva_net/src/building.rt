// The nodes of a configuration, with their rows.
ghost use Rattle.std.specs.Prelude.{◌≡◌, ◌<◌, ◌≤◌, [], ◌∷◌, All, IfOk, OnOk, length, slice_index_or};
ghost use Rattle.std.specs.List.{AllZip};
ghost use Rattle.tva_plan.specs.Valid.{IsConfig};
ghost use Rattle.tva_rows.specs.Valid.{AreTraceRows};
ghost use Rattle.tva_rows.specs.declared.rows.Row.{Row};
ghost use Rattle.tva_run.specs.declared.kinds.Input.TheVariants.{FromTrace};
ghost use Rattle.tva_run.specs.Reaching.{links_out, rows_at};
ghost use Rattle.tva_net.specs.Mail.{CanDeliver, GotMails, KeepsWork, mail_at};
ghost use Rattle.tva_net.specs.Built.{AreFirstNodes, AreRowCounts, IsFirstNode};

use std::alloc::{AllocError, Global};
use tva_base::LinkPlan;
use tva_node::{Memory, Node};
use tva_plan::Config;
use tva_rows::PackedRows;

/// The nodes of a configuration in their order, each with its rows of the trace, to which nothing
/// happened yet, and of which memory keeps so much. The error is want of memory.
pub(crate) fn first_nodes(
    alloc: Global,
    config: &Config,
    rows: PackedRows,
    keeps: Memory,
) -> Result<Vec<Node>, AllocError>
    requires config { IsConfig config.now }
    requires rows { AreTraceRows config.now rows }
    ensures first { IfOk result (λ nodes. AreFirstNodes config.now rows nodes.items) }
    ensures keeps { IfOk result (λ nodes. All (λ v. v.keeps ≡ keeps) nodes.items) }
{
    let mut nodes = nodes_of(alloc, config, keeps)?;
    let each = nodes.as_mut_slice();
    make_room(alloc, each, &rows)?;
    file_rows(each, &rows)?;
    Ok(nodes)
}

// The nodes without their rows.
fn nodes_of(alloc: Global, config: &Config, keeps: Memory) -> Result<Vec<Node>, AllocError>
    requires { IsConfig config.now }
    ensures first { IfOk result (λ nodes. AreFirstNodes config.now [] nodes.items) }
    ensures keeps { IfOk result (λ nodes. All (λ v. v.keeps ≡ keeps) nodes.items) }
{
    let count = config.nodes.len();
    let mut nodes = Vec::with_capacity(alloc, count)?;
    for number in 0..count {
        nodes.push(node_of(alloc, config, number as u16, keeps)?)?;
    }
    Ok(nodes)
}

// The node of that number.
fn node_of(alloc: Global, config: &Config, number: u16, keeps: Memory) -> Result<Node, AllocError>
    requires config { IsConfig config.now }
    requires node { number < length config.now.nodes }
    ensures first { IfOk result (λ node. IsFirstNode config.now [] number node) }
    ensures keeps { IfOk result (λ node. node.keeps ≡ keeps) }
{
    let links = links_out(alloc, number, config.links.as_slice())?;
    let plans = config.nodes.as_slice();
    let plan = &plans[usize::from(number)];
    let node = Node::build_keeping(alloc, config.horizon, number, plan, links.as_slice(), keeps)?;
    Ok(node)
}

// The links out of a node, by their numbers.
fn links_out(
    alloc: Global,
    node: u16,
    links: &[LinkPlan],
) -> Result<Vec<(u16, LinkPlan)>, AllocError>
    requires { length links.now ≤ 4096 }
    ensures { IfOk result (λ out. out.items ≡ links_out node links.now) }
{
    let mut out = Vec::new(alloc);
    for (i, link) in links.iter().enumerate() {
        if link.from == node {
            out.push((i as u16, *link))?;
        }
    }
    Ok(out)
}

// Makes room for the rows of each node.
fn make_room(alloc: Global, nodes: &mut [Node], rows: &PackedRows) -> Result<(), AllocError>
    requires few { length rows.now ≤ 1000000 }
    requires within { All (λ row. row.node < length nodes.old) rows.now }
    ensures { nodes.new ≡ nodes.old }
{
    let counts = row_counts(alloc, nodes.len(), rows)?;
    for place in 0..nodes.len() {
        nodes[place].reserve(counts[place])?;
    }
    Ok(())
}

// How many rows each of so many nodes has.
fn row_counts(alloc: Global, count: usize, rows: &PackedRows) -> Result<Vec<usize>, AllocError>
    requires few { length rows.now ≤ 1000000 }
    requires within { All (λ row. row.node < count) rows.now }
    ensures { IfOk result (λ counts. AreRowCounts count rows.now counts.items) }
{
    let mut counts = vec![in alloc; 0; count]?;
    for place in 0..rows.len() {
        counts[usize::from(rows.node_at(place))] += 1;
    }
    Ok(counts)
}

// Gives each row to its node.
fn file_rows(nodes: &mut [Node], rows: &PackedRows) -> Result<(), AllocError>
    requires { All (λ row. CanDeliver nodes.old row.node (FromTrace row)) rows.now }
    ensures got { OnOk result (GotMails (rows_at rows.now) nodes.old nodes.new) }
    ensures keeps { AllZip KeepsWork nodes.old nodes.new }
{
    for place in 0..rows.len() {
        file_row(nodes, rows, place)?;
    }
    Ok(())
}

// Gives the row at a place to its node.
fn file_row(nodes: &mut [Node], rows: &PackedRows, place: usize) -> Result<(), AllocError>
    requires within { place < length rows.now }
    requires takes { (row : Row) → CanDeliver nodes.old (slice_index_or rows.now place row).node
        (FromTrace (slice_index_or rows.now place row)) }
    ensures got { (row : Row) → OnOk result (GotMails (mail_at (slice_index_or rows.now place row).node
        (FromTrace (slice_index_or rows.now place row) ∷ [])) nodes.old nodes.new) }
    ensures keeps { AllZip KeepsWork nodes.old nodes.new }
{
    let node = usize::from(rows.node_at(place));
    nodes[node].post_packed(rows, place)?;
    Ok(())
}
