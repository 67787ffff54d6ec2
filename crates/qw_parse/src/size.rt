//! How large a query is: its nodes, and the octets of the values of its character strings.

ghost use Rattle.std.specs.Prelude.{◌≡◌, length, map, option_map};
ghost use Rattle.qw_ast.specs.SyntaxTree.{branching_of, clause_of, condition_of, expression_of, expressions_of, item_of, joined_of, select_of, selected_of, source_of};
ghost use Rattle.qw_ast.specs.Limits.{items_of, nodes, nodes_all, nodes_branches, nodes_clause, nodes_condition, octets, octets_all, octets_branches, octets_clause, octets_condition, over_filter, over_items, over_joins, over_sources, query_nodes, query_octets, starred_nodes};
ghost use Rattle.qw_parse.specs.Inner.Sizes.{Counts, counted};

use qw_ast::quoted::unquoted_length;
use qw_ast::script::{
    Branches, Cond, Expr, Exprs, Item, Joined, Phrase, SelectList, Source, Statement,
};

/// Nodes, and octets of the values of character strings. Each of the two stays at the greatest number where it would pass it.
#[derive(Clone, Copy)]
pub(crate) struct Size {
    pub(crate) nodes: usize,
    pub(crate) octets: usize,
}

// A chain of operators may be as long as a text, and so may a list: what counts them goes along them by a loop.
impl Size {
    /// With so many nodes and so many octets more.
    fn with(self, nodes: usize, octets: usize) -> Size
        ensures { Counts self result nodes octets }
    {
        Size {
            nodes: self.nodes.saturating_add(nodes),
            octets: self.octets.saturating_add(octets),
        }
    }

    /// With a node more.
    fn node(self) -> Size
        ensures { Counts self result 1 0 }
    {
        self.with(1, 0)
    }

    /// With the expression.
    #[cycle(size)]
    fn expression(self, expression: &Expr<'_>) -> Size
        ensures { Counts self result (nodes (expression_of expression.now)) (octets (expression_of expression.now)) }
    {
        let mut size = self;
        let mut left = expression;
        loop {
            match left {
                Expr::Null => return size,
                Expr::Number(_) | Expr::Date(_, _) | Expr::Column(_, _) => return size.node(),
                Expr::CountRows(_) => return size.node(),
                Expr::Text(string) => return size.with(1, unquoted_length(b'\'', string)),
                Expr::Signed(_, operand)
                | Expr::Extract(_, operand)
                | Expr::SetFunction(_, _, operand) => {
                    size = size.node();
                    left = operand;
                }
                Expr::Arithmetic(_, first, second) => {
                    size = size.node().expression(second);
                    left = first;
                }
                Expr::Case(branches) => return size.node().branches(branches),
                Expr::Match(operand, branches) => {
                    size = size.node().branches(branches);
                    left = operand;
                }
                Expr::Call(_, arguments) => return size.node().expressions(arguments),
            }
        }
    }

    /// With the condition.
    #[cycle(size)]
    fn condition(self, condition: &Cond<'_>) -> Size
        ensures { Counts self result (nodes_condition (condition_of condition.now)) (octets_condition (condition_of condition.now)) }
    {
        let mut size = self;
        let mut left = condition;
        loop {
            match left {
                Cond::Compare(_, first, second) => {
                    return size.node().expression(first).expression(second);
                }
                Cond::Between(_, operand, least, greatest) => {
                    return size
                        .node()
                        .expression(operand)
                        .expression(least)
                        .expression(greatest);
                }
                Cond::In(_, operand, values) => {
                    return size.node().expression(operand).expressions(values);
                }
                Cond::Predicate(_, _, operand) => return size.node().expression(operand),
                Cond::And(first, second) | Cond::Or(first, second) => {
                    size = size.node().condition(second);
                    left = first;
                }
                Cond::Not(operand) | Cond::Is(_, operand, _) => {
                    size = size.node();
                    left = operand;
                }
                Cond::Bracketed(operand) => left = operand,
            }
        }
    }

    /// With the phrase.
    #[cycle(size)]
    fn phrase(self, phrase: &Phrase<'_>) -> Size
        ensures { Counts self result (nodes_clause (clause_of phrase.now)) (octets_clause (clause_of phrase.now)) }
    {
        match phrase {
            Phrase::Condition(condition) => self.condition(condition),
            Phrase::Expression(expression) => self.expression(expression),
        }
    }

    /// With the expressions.
    #[cycle(size)]
    fn expressions(self, expressions: &Exprs<'_>) -> Size
        ensures { Counts self result (nodes_all (expressions_of expressions.now)) (octets_all (expressions_of expressions.now)) }
    {
        let mut size = self;
        let mut rest = expressions;
        loop {
            match rest {
                Exprs::Last(last) => return size.expression(last),
                Exprs::More(first, others) => {
                    size = size.expression(first);
                    rest = others;
                }
            }
        }
    }

    /// With the branches of a CASE.
    #[cycle(size)]
    fn branches(self, branches: &Branches<'_>) -> Size
        ensures { Counts self result (nodes_branches (branching_of branches.now)) (octets_branches (branching_of branches.now)) }
    {
        let mut size = self;
        let mut rest = branches;
        loop {
            match rest {
                Branches::Else(result) => return size.expression(result),
                Branches::When(test, result, others) => {
                    size = size.phrase(test).expression(result);
                    rest = others;
                }
            }
        }
    }

    /// With the expressions of the items.
    fn items(self, items: &[Item<'_>]) -> Size
        ensures { Counts self result (over_items nodes (map item_of items.now)) (over_items octets (map item_of items.now)) }
    {
        let mut size = self;
        for item in items {
            size = size.expression(&item.expression);
        }
        size
    }

    /// With the select list.
    fn select_list(self, list: &SelectList<'_>) -> Size
        ensures { Counts self result (over_items nodes (items_of (selected_of list.now))) (over_items octets (items_of (selected_of list.now))) }
    {
        match list {
            SelectList::All => self,
            SelectList::Items(items) => self.items(items),
        }
    }

    /// With the condition of each ON.
    fn joins(self, joins: &[Joined<'_>]) -> Size
        ensures { Counts self result (over_joins nodes_condition (map joined_of joins.now)) (over_joins octets_condition (map joined_of joins.now)) }
    {
        let mut size = self;
        for join in joins {
            size = size.condition(&join.on);
        }
        size
    }

    /// With the conditions of FROM.
    fn sources(self, sources: &[Source<'_>]) -> Size
        ensures { Counts self result (over_sources nodes_condition (map source_of sources.now)) (over_sources octets_condition (map source_of sources.now)) }
    {
        let mut size = self;
        for source in sources {
            size = size.joins(source.joins.as_slice());
        }
        size
    }

    /// With the condition, if it is there.
    fn filter(self, condition: &Option<Cond<'_>>) -> Size
        ensures { Counts self result (over_filter nodes_condition (option_map condition_of condition.now)) (over_filter octets_condition (option_map condition_of condition.now)) }
    {
        match condition {
            None => self,
            Some(condition) => self.condition(condition),
        }
    }
}

/// The nodes of `*` behind DISTINCT.
const STARRED_NODES: usize = 512;

/// How many nodes a `*` of the query is.
fn starred_nodes(query: &Statement<'_>) -> usize
    ensures { result ≡ starred_nodes query.now.distinct (selected_of query.now.list) }
{
    match query.list {
        SelectList::All if query.distinct => STARRED_NODES,
        _ => 0,
    }
}

/// How large the query is.
pub(crate) fn size_of(query: &Statement<'_>) -> Size
    ensures nodes { result.nodes ≡ counted (query_nodes (select_of query.now)) }
    ensures octets { result.octets ≡ counted (query_octets (select_of query.now)) }
{
    let none = Size {
        nodes: 0,
        octets: 0,
    };
    none.with(starred_nodes(query), 0)
        .select_list(&query.list)
        .sources(query.sources.as_slice())
        .filter(&query.condition)
        .with(query.grouping.len(), 0)
        .filter(&query.having)
}
