// The routes of the office.
ghost use Rattle.std.specs.Prelude.{◌≡◌, ℕ, List, map, IfOk, OnOk, IfSome, IsNone};
ghost use Rattle.office_requests.specs.declared.routes.Page.{Page};
ghost use Rattle.office_requests.specs.Table.{Rows, adds, adds_all, table, page_at};
ghost use Rattle.office_requests.specs.Pages.{IsRouteTo, page_of};

use matchit::Router;
use std::alloc::{AllocError, Global};
use std::marker::Model;

/// A page of the office: a path without its numbers, with up to three methods.
#[derive(Clone, Copy, Debug, PartialEq, Eq)]
pub enum Page {
    Me,
    MyExam,
    MyPenalty,
    Instance,
    Owner,
    Draft,
    DraftPenalty,
    DraftViolations,
    DraftPlaces,
    Place,
    Move,
    /// An exam's place in a draft.
    Slot,
    Swap,
    Publish,
    Publication,
    PublicationPenalty,
    PublicationRooms,
    PublicationSeats,
    Batch,
}

// Each page with its route.
const ROUTES: [(&str, Page); 19] = [
    ("/me", Page::Me),
    ("/me/exam/{n}", Page::MyExam),
    ("/me/penalty", Page::MyPenalty),
    ("/instance", Page::Instance),
    ("/exams/{e}/owner", Page::Owner),
    ("/drafts/{d}", Page::Draft),
    ("/drafts/{d}/penalty", Page::DraftPenalty),
    ("/drafts/{d}/violations", Page::DraftViolations),
    ("/drafts/{d}/exams/{e}/places", Page::DraftPlaces),
    ("/drafts/{d}/exams/{e}/place", Page::Place),
    ("/drafts/{d}/exams/{e}/move", Page::Move),
    ("/drafts/{d}/exams/{e}", Page::Slot),
    ("/drafts/{d}/swap/{a}/{b}", Page::Swap),
    ("/drafts/{d}/publish", Page::Publish),
    ("/publication", Page::Publication),
    ("/publication/penalty", Page::PublicationPenalty),
    ("/publication/rooms", Page::PublicationRooms),
    ("/publication/seats", Page::PublicationSeats),
    ("/batches/{n}", Page::Batch),
];

/// The office's routes, from paths to pages.
#[derive(Drop)]
pub struct Routes {
    router: Router<Page>,
}

impl Model for Routes {
    ghost Value = { Rows };

    ghost view = { λ r. r.router };

    ghost invariant = { λ r. r.router ≡ table };
}

impl Routes {
    /// Returns the routes; must be called once, before the first request.
    pub fn new(alloc: Global) -> Result<Routes, AllocError>
        ensures { IfOk result (λ routes. routes ≡ table) }
    {
        Ok(Routes {
            router: all_routes(alloc)?,
        })
    }

    /// Returns the page whose pattern takes the path segment by segment. A number in a pattern
    /// takes any segment that isn't empty.
    pub fn page(&self, path: &str) -> Option<Page>
        ensures found { IfSome result (λ page. IsRouteTo page path.now) }
        ensures none { IsNone result → (page : Page) → ¬ (IsRouteTo page path.now) }
        ensures only { result ≡ page_of path.now }
    {
        page_at(&self.router, path)
    }
}

fn page_at(router: &Router<Page>, path: &str) -> Option<Page>
    ensures { result ≡ page_at router.now path.now }
{
    match router.at(path) {
        Ok(found) => Some(*found.value),
        Err(_) => None,
    }
}

fn all_routes(alloc: Global) -> Result<Router<Page>, AllocError>
    ensures { IfOk result (λ r. r ≡ table) }
{
    let mut router = Router::new(alloc);
    add_all(&mut router, &ROUTES)?;
    Ok(router)
}

// Adds the routes one after the other.
fn add_all(router: &mut Router<Page>, routes: &[(&str, Page)]) -> Result<(), AllocError>
    ensures { OnOk result (router.new
        ≡ adds_all (map (λ route. (route.0.now, route.1)) routes.now) router.old) }
{
    for (route, page) in routes {
        add(router, route, *page)?;
    }
    Ok(())
}

// Adds a route. `Err`: out of memory.
fn add(router: &mut Router<Page>, route: &str, page: Page) -> Result<(), AllocError>
    ensures { OnOk result (router.new ≡ adds route.now page router.old) }
{
    if router.insert(route, page).is_ok() {
        Ok(())
    } else {
        Err(AllocError)
    }
}

/// A path has at most one page.
pub fn one_page()
    ensures { (path : List ℕ) (p q : Page) → IsRouteTo p path → IsRouteTo q path → p ≡ q }
{}
