// Laws of requests.
ghost use Rattle.std.specs.Prelude.{◌≡◌, ◌≢◌, ℕ, List, Option, Some, Ok, Err, is_ok};
ghost use Rattle.office_policy.specs.Commands.{PlainCommand, HasSmallNumbers};
ghost use Rattle.office_policy.specs.declared.callers.Caller.{Caller};
ghost use Rattle.office_requests.specs.Methods.{verb_of, allow_of, is_listed};
ghost use Rattle.office_requests.specs.Pages.{page_of};
ghost use Rattle.office_requests.specs.Printing.{path_of, method_of};
ghost use Rattle.office_requests.specs.PrintedBodies.{BodyHasValue, MaySendCommand};
ghost use Rattle.office_requests.specs.Requests.{caller_in, staff_command, command_or_refusal};
ghost use Rattle.office_requests.specs.declared.routes.Page.{Page};
ghost use Rattle.office_requests.specs.declared.requests.Refusal.TheVariants as refusal;

/// A page's `Allow` lists exactly the methods with a command there: unless the path is refused, a
/// request has a command exactly if its method is in the list. Whether the path is refused is
/// judged first, for each method and body.
pub fn allow_lists_the_methods()
    ensures listed { (page : Page) (path method body : List ℕ) → page_of path ≡ Some page
        → staff_command (verb_of method) path body ≢ Err refusal.Path
        → is_listed method (allow_of page) ≡ is_ok (staff_command (verb_of method) path body) }
    ensures path_first { (path method other body text : List ℕ)
        → staff_command (verb_of method) path body ≡ Err refusal.Path
        → staff_command (verb_of other) path text ≡ Err refusal.Path }
{}

/// A command's method and path, printed with its numbers in decimal, and a body with the value of
/// the command's body, are read back as that command: for the office and for departments each
/// command, for a candidate their own three pages.
pub fn commands_are_read_back()
    ensures { (value : Option (List ℕ)) (who : Caller) (c : PlainCommand) (body : List ℕ)
        → caller_in value ≡ Some who → MaySendCommand who c → HasSmallNumbers c
        → BodyHasValue body c
        → command_or_refusal (method_of c) (path_of c) value body
        ≡ Ok (record { caller = who; command = c }) }
{}
