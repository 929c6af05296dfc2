//! The tags of a document.

ghost use Rattle.std.specs.Prelude.{◌≡◌};
ghost use Rattle.view_pages.specs.Tags.{case_in, cause_begin, cause_end, cell_next, document_end, faults_begin};
ghost use Rattle.view_pages.specs.Tags.{group_end, item_end, line_begin, link_end, list_end, main_begin};
ghost use Rattle.view_pages.specs.Tags.{main_end, main_next, names_end, no_fault, page_size, page_size_alone};
ghost use Rattle.view_pages.specs.Tags.{page_size_end, path_end, row_begin, row_end, sheet_end};
ghost use Rattle.view_pages.specs.Tags.{sheet_height, sheet_number, sheet_paper, sorts_begin, table_begin};
ghost use Rattle.view_pages.specs.Tags.{table_end, title_begin, title_end, wedge_in};

/// What begins the title of a document.
#[tactic(auto, unfolding(crate::specs::Tags::title_begin))]
pub fn title_begin() -> &'static str
    ensures { result.now ≡ title_begin }
{
    "<title>Proof of "
}

/// What ends it, and begins the looks.
#[tactic(auto, unfolding(crate::specs::Tags::title_end))]
pub fn title_end() -> &'static str
    ensures { result.now ≡ title_end }
{
    "</title>\n<style>"
}

/// What begins the size of a page on paper.
#[tactic(auto, unfolding(crate::specs::Tags::page_size))]
pub fn page_size() -> &'static str
    ensures { result.now ≡ page_size }
{
    "@page{size:"
}

/// That of a document without a galley, which is 500 points wide.
#[tactic(auto, unfolding(crate::specs::Tags::page_size_alone))]
pub fn page_size_alone() -> &'static str
    ensures { result.now ≡ page_size_alone }
{
    "@page{size:500pt "
}

/// What ends it.
#[tactic(auto, unfolding(crate::specs::Tags::page_size_end))]
pub fn page_size_end() -> &'static str
    ensures { result.now ≡ page_size_end }
{
    "pt;margin:0}"
}

/// What ends the looks, and begins the first page and its title.
#[tactic(auto, unfolding(crate::specs::Tags::main_begin))]
pub fn main_begin() -> &'static str
    ensures { result.now ≡ main_begin }
{
    "</style>\n</head>\n<body>\n<main>\n<h1>Proof of "
}

/// What ends that title.
#[tactic(auto, unfolding(crate::specs::Tags::main_next))]
pub fn main_next() -> &'static str
    ensures { result.now ≡ main_next }
{
    "</h1>\n"
}

/// What stands before the number of the case.
#[tactic(auto, unfolding(crate::specs::Tags::case_in))]
pub fn case_in() -> &'static str
    ensures { result.now ≡ case_in }
{
    "</p>\n<p>Case "
}

/// What stands before the number of the wedge.
#[tactic(auto, unfolding(crate::specs::Tags::wedge_in))]
pub fn wedge_in() -> &'static str
    ensures { result.now ≡ wedge_in }
{
    ", wedge "
}

/// What ends the names of both files.
#[tactic(auto, unfolding(crate::specs::Tags::names_end))]
pub fn names_end() -> &'static str
    ensures { result.now ≡ names_end }
{
    ".</p>\n"
}

/// What begins the faults of a copy.
#[tactic(auto, unfolding(crate::specs::Tags::faults_begin))]
pub fn faults_begin() -> &'static str
    ensures { result.now ≡ faults_begin }
{
    "<h2>Faults of the copy</h2>\n<ul>\n"
}

/// What begins the symbols that the case lacks.
#[tactic(auto, unfolding(crate::specs::Tags::sorts_begin))]
pub fn sorts_begin() -> &'static str
    ensures { result.now ≡ sorts_begin }
{
    "<h2>Missing sorts</h2>\n<ul>\n"
}

/// What ends either list.
#[tactic(auto, unfolding(crate::specs::Tags::list_end))]
pub fn list_end() -> &'static str
    ensures { result.now ≡ list_end }
{
    "</ul>\n"
}

/// What ends an item of a list.
#[tactic(auto, unfolding(crate::specs::Tags::item_end))]
pub fn item_end() -> &'static str
    ensures { result.now ≡ item_end }
{
    "</li>\n"
}

/// What stands where no line is at fault.
#[tactic(auto, unfolding(crate::specs::Tags::no_fault))]
pub fn no_fault() -> &'static str
    ensures { result.now ≡ no_fault }
{
    "<p>No line is at fault.</p>\n"
}

/// What begins the lines at fault.
#[tactic(auto, unfolding(crate::specs::Tags::table_begin))]
pub fn table_begin() -> &'static str
    ensures { result.now ≡ table_begin }
{
    "<h2>Lines at fault</h2>\n\
    <table>\n<thead><tr><th>line</th><th>place</th><th>cause</th><th>way out</th></tr></thead>\n<tbody>\n"
}

/// What ends them.
#[tactic(auto, unfolding(crate::specs::Tags::table_end))]
pub fn table_end() -> &'static str
    ensures { result.now ≡ table_end }
{
    "</tbody>\n</table>\n"
}

/// What begins the row of a line at fault, up to where its link leads.
#[tactic(auto, unfolding(crate::specs::Tags::row_begin))]
pub fn row_begin() -> &'static str
    ensures { result.now ≡ row_begin }
{
    "<tr><td><a href=\"#line-"
}

/// What ends its link.
#[tactic(auto, unfolding(crate::specs::Tags::link_end))]
pub fn link_end() -> &'static str
    ensures { result.now ≡ link_end }
{
    "</a></td><td>"
}

/// What stands between cells.
#[tactic(auto, unfolding(crate::specs::Tags::cell_next))]
pub fn cell_next() -> &'static str
    ensures { result.now ≡ cell_next }
{
    "</td><td>"
}

/// What ends a row.
#[tactic(auto, unfolding(crate::specs::Tags::row_end))]
pub fn row_end() -> &'static str
    ensures { result.now ≡ row_end }
{
    "</td></tr>\n"
}

/// What stands before the cause where there is no galley.
#[tactic(auto, unfolding(crate::specs::Tags::cause_begin))]
pub fn cause_begin() -> &'static str
    ensures { result.now ≡ cause_begin }
{
    "<p class=\"c\">"
}

/// What ends it.
#[tactic(auto, unfolding(crate::specs::Tags::cause_end))]
pub fn cause_end() -> &'static str
    ensures { result.now ≡ cause_end }
{
    "</p>\n"
}

/// What ends the first page.
#[tactic(auto, unfolding(crate::specs::Tags::main_end))]
pub fn main_end() -> &'static str
    ensures { result.now ≡ main_end }
{
    "</main>\n"
}

/// What ends a document.
#[tactic(auto, unfolding(crate::specs::Tags::document_end))]
pub fn document_end() -> &'static str
    ensures { result.now ≡ document_end }
{
    "</body>\n</html>\n"
}

/// What stands between the width and the height of a page.
#[tactic(auto, unfolding(crate::specs::Tags::sheet_height))]
pub fn sheet_height() -> &'static str
    ensures { result.now ≡ sheet_height }
{
    "pt\" height=\""
}

/// What stands between its height and its number.
#[tactic(auto, unfolding(crate::specs::Tags::sheet_number))]
pub fn sheet_number() -> &'static str
    ensures { result.now ≡ sheet_number }
{
    "pt\" id=\"page-"
}

/// What ends the beginning of a page, and its paper.
#[tactic(auto, unfolding(crate::specs::Tags::sheet_paper))]
pub fn sheet_paper() -> &'static str
    ensures { result.now ≡ sheet_paper }
{
    "\">\n<rect class=\"paper\" width=\"100%\" height=\"100%\"/>\n"
}

/// What ends a line, or the lines of a page.
#[tactic(auto, unfolding(crate::specs::Tags::group_end))]
pub fn group_end() -> &'static str
    ensures { result.now ≡ group_end }
{
    "</g>\n"
}

/// What ends a page.
#[tactic(auto, unfolding(crate::specs::Tags::sheet_end))]
pub fn sheet_end() -> &'static str
    ensures { result.now ≡ sheet_end }
{
    "</svg>\n"
}

/// What begins a line, up to its number.
#[tactic(auto, unfolding(crate::specs::Tags::line_begin))]
pub fn line_begin() -> &'static str
    ensures { result.now ≡ line_begin }
{
    "<g id=\"line-"
}

/// What ends the rules of a line.
#[tactic(auto, unfolding(crate::specs::Tags::path_end))]
pub fn path_end() -> &'static str
    ensures { result.now ≡ path_end }
{
    "\"/>\n"
}
