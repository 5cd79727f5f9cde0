//! The start of a hub.
ghost use Rattle.std.specs.Prelude.{◌≡◌, ◌⊎◌, [], false, IfOk, IfErr, MatchResult};
ghost use Rattle.nb_base.specs.Causes.{Rose};
ghost use Rattle.nb_base.specs.Meanings.{AllFit};
ghost use Rattle.nb_base.specs.Shown.{stored};
ghost use Rattle.nb_cells.specs.Cells.{CellMap};
ghost use Rattle.nb_core.specs.Legal.{HasRoutes};
ghost use Rattle.nb_hub.specs.Indexed.{IsIndexed};
ghost use Rattle.nb_hub.specs.Ledgers.{course, past_of};
ghost use Rattle.nb_hub.specs.Starting.{opening_of, of_base, of_post, beside, AreFree, IsMisfitOf, IsRead, Told, TellsOne, RefusesBase, RefusesPost, IsOfBase, IsOfPost, IsOfReading};
ghost use Rattle.nb_hub.specs.Stores.{BaseStands, PostStands};
ghost use Rattle.nb_hub.specs.declared.fault.StartFault.TheVariants.{StoreFailed, PostFailed};
ghost use Rattle.nb_queue.specs.Maps as queue;
ghost use Rattle.nb_store.specs.CellMaps as table;
ghost use Rattle.nb_store.specs.Scanning.{Opens};

use crate::fault::StartFault;
use crate::hub::Hub;
use crate::index::note;
use crate::ledger::Ledger;
use crate::misfits::least_misfit;
use crate::transport::Transport;
use nb_base::{
    ByNumber, Copied, Handling, Moment, NoMemory, PostState, Queued, Settings, Tables, Text, Which,
};
use nb_cells::Cells;
use nb_core::Opening;
use nb_queue::{Post, PostFault, PostRefusal};
use nb_ready::Ready;
use nb_saga_store::SAGAS;
use nb_store::{Store, StoreFault, StoreRefusal};
use std::alloc::Global;

/// Why a hub can't be started, and the two stores.
#[derive(Drop)]
pub struct StartRefusal<P, D> {
    pub fault: StartFault,
    pub post: P,
    pub base: D,
}

/// Why a store of tables can't be that of a hub, and the store.
#[derive(Drop)]
struct BaseRefusal<D> {
    fault: StartFault,
    base: D,
}

/// A base that was opened, with a copy of its tables.
#[derive(Drop)]
struct BaseOpened<D> {
    store: Store<D>,
    tables: Tables,
}

/// Why no hub is started, and the store of queues, which was read.
#[derive(Drop)]
struct PostRefused<P> {
    fault: StartFault,
    post: P,
}

/// What a hub has of its queues in memory: their name, their index and what stood in them at the start.
#[derive(Drop)]
struct Copies {
    own: Text,
    ready: Ready,
    state: PostState,
}

/// What a hub is started with beside its stores.
#[derive(Drop)]
struct Terms<M> {
    handlers: M,
    settings: Settings,
    moment: Moment,
    workers: u32,
    turns: u64,
}

/// The index of the entries of the own queue.
fn index_of(alloc: Global, own: &Text, entries: &ByNumber<Queued>) -> Result<Ready, NoMemory>
    ensures indexed { IfOk result (IsIndexed own.now entries.now) }
    ensures free { IfOk result AreFree }
{
    let mut ready = Ready::new(alloc);
    for (number, entry) in entries.iter() {
        note(alloc, &mut ready, own, *number, &entry.queue, entry.due)?;
    }
    Ok(ready)
}

/// What a fault of the tables says of a start.
fn of_base(fault: StoreFault) -> StartFault
    ensures { result ≡ of_base fault }
{
    match fault {
        StoreFault::Failed => StartFault::StoreFailed,
        StoreFault::Damaged { space, key } => StartFault::Damaged {
            store: Which::Base,
            space,
            key,
        },
        StoreFault::Spent => StartFault::NoMemory,
        StoreFault::NoMemory => StartFault::NoMemory,
    }
}

/// What a fault of the queues says of a start.
fn of_post(fault: PostFault) -> StartFault
    ensures { result ≡ of_post fault }
{
    match fault {
        PostFault::Failed => StartFault::PostFailed,
        PostFault::Damaged { space, key } => StartFault::Damaged {
            store: Which::Post,
            space,
            key,
        },
        PostFault::Spent => StartFault::NoMemory,
        PostFault::NoMemory => StartFault::NoMemory,
    }
}

/// What a fault of the queues says of a start whose base is damaged: only damage is less than that.
fn beside(damage: StartFault, fault: PostFault) -> StartFault
    ensures { result ≡ beside damage fault }
{
    match fault {
        PostFault::Failed => StartFault::PostFailed,
        PostFault::Damaged { space: _, key: _ } => damage,
        PostFault::Spent => StartFault::NoMemory,
        PostFault::NoMemory => StartFault::NoMemory,
    }
}

/// A copy of the tables, whose sagas fit the script.
fn fitting<M: Handling, D: Cells>(
    alloc: Global,
    handlers: &M,
    store: &Store<D>,
) -> Result<Tables, StartFault>
    ensures copy { IfOk result (λ t. t ≡ store.now.tables) }
    ensures fit { IfOk result (λ t. AllFit (M.meaning handlers.now) (stored store.now.tables)) }
    ensures misfit { IfErr result (IsMisfitOf (M.meaning handlers.now) store.now.tables) }
{
    let _sound = store.commits();
    let tables = store.all()?;
    match least_misfit(alloc, handlers, &tables.sagas)? {
        None => Ok(tables),
        Some(key) => Err(StartFault::Damaged {
            store: Which::Base,
            space: SAGAS,
            key,
        }),
    }
}

/// The base whose sagas fit the script, with a copy of its tables.
fn with_tables<M: Handling, D: Cells>(
    alloc: Global,
    handlers: &M,
    store: Store<D>,
) -> Result<BaseOpened<D>, BaseRefusal<D>>
    ensures store { MatchResult result (λ o. o.store ≡ store) (λ r. r.base ≡ store.base) }
    ensures copy { IfOk result (λ o. o.tables ≡ store.tables) }
    ensures fit { IfOk result (λ o. AllFit (M.meaning handlers.now) (stored store.tables)) }
    ensures misfit { IfErr result (λ r. IsMisfitOf (M.meaning handlers.now) store.tables r.fault) }
{
    match fitting(alloc, handlers, &store) {
        Ok(tables) => Ok(BaseOpened { store, tables }),
        Err(fault) => {
            let closed = store.close();
            Err(BaseRefusal {
                fault,
                base: closed.base,
            })
        }
    }
}

/// The base of which a store has the cells.
fn open_base<M: Handling, D: Cells>(
    alloc: Global,
    handlers: &M,
    base: D,
) -> Result<BaseOpened<D>, BaseRefusal<D>>
    ensures read { MatchResult result (λ o. IsRead D.honest D.now D.images D.firm D.count base o.store.base) (λ r. IsRead D.honest D.now D.images D.firm D.count base r.base) }
    ensures opened { (m : CellMap) → MatchResult result (λ o. Told D.honest D.now D.firm base o.store.base m → Opens m o.store.tables) (λ r. Told D.honest D.now D.firm base r.base m → RefusesBase (M.meaning handlers.now) m r.fault) }
    ensures cells { (m : CellMap) → IfOk result (λ o. Told D.honest D.now D.firm base o.store.base m → table.HasCells m o.store.tables) }
    ensures copy { IfOk result (λ o. o.tables ≡ o.store.tables) }
    ensures fit { IfOk result (λ o. AllFit (M.meaning handlers.now) (stored o.store.tables)) }
    ensures failed { IfErr result (λ r. r.fault ≡ StoreFailed → Rose (D.count base) (D.count r.base)) }
    ensures kind { IfErr result (λ r. IsOfBase r.fault) }
{
    match Store::start(alloc, base) {
        Ok(store) => with_tables(alloc, handlers, store),
        Err(StoreRefusal { fault, base }) => Err(BaseRefusal {
            fault: of_base(fault),
            base,
        }),
    }
}

/// Reads the queues beside a damaged base: where their store fails, the start fails by this.
fn read_beside<P: Cells>(alloc: Global, damage: StartFault, post: P) -> PostRefused<P>
    requires { IsOfBase damage }
    ensures read { IsRead P.honest P.now P.images P.firm P.count post result.post }
    ensures fault { (result.fault ≡ damage) ⊎ IsOfReading result.fault }
    ensures failed { result.fault ≡ PostFailed → Rose (P.count post) (P.count result.post) }
{
    match Post::start(alloc, post) {
        Ok(queues) => {
            let closed = queues.close();
            PostRefused {
                fault: damage,
                post: closed.cells,
            }
        }
        Err(PostRefusal { fault, cells }) => PostRefused {
            fault: beside(damage, fault),
            post: cells,
        },
    }
}

/// The refusal of a base, beside which the queues are read all the same where it is damaged.
fn refused<P: Cells, D>(alloc: Global, refusal: BaseRefusal<D>, post: P) -> StartRefusal<P, D>
    requires { IsOfBase refusal.fault }
    ensures base { result.base ≡ refusal.base }
    ensures read { IsRead P.honest P.now P.images P.firm P.count post result.post }
    ensures fault { (result.fault ≡ refusal.fault) ⊎ IsOfReading result.fault }
    ensures failed { result.fault ≡ PostFailed → Rose (P.count post) (P.count result.post) }
    ensures unread { result.fault ≡ StoreFailed → result.post ≡ post }
{
    let BaseRefusal { fault, base } = refusal;
    match fault {
        StartFault::Damaged { store, space, key } => {
            let damage = StartFault::Damaged { store, space, key };
            let PostRefused { fault, post } = read_beside(alloc, damage, post);
            StartRefusal { fault, post, base }
        }
        StartFault::StoreFailed => StartRefusal {
            fault: StartFault::StoreFailed,
            post,
            base,
        },
        StartFault::PostFailed => unreachable!(),
        StartFault::NoMemory => StartRefusal {
            fault: StartFault::NoMemory,
            post,
            base,
        },
    }
}

/// What is copied of the queues.
fn copied<P: Cells>(alloc: Global, own: &Text, post: &Post<P>) -> Result<Copies, NoMemory>
    ensures own { IfOk result (λ x. x.own ≡ own.now) }
    ensures indexed { IfOk result (λ x. IsIndexed own.now post.now.queues.entries x.ready) }
    ensures free { IfOk result (λ x. AreFree x.ready) }
    ensures state { IfOk result (λ x. x.state ≡ post.now.queues) }
{
    let ready = index_of(alloc, own, &post.state().entries)?;
    let own = own.copy()?;
    let state = post.all()?;
    Ok(Copies { own, ready, state })
}

impl<M: Handling + Drop> Terms<M> {
    /// The hub of the stores.
    fn assemble<P: Cells, D: Cells>(
        self,
        alloc: Global,
        opened: BaseOpened<D>,
        post: Post<P>,
        copies: Copies,
    ) -> Hub<M, P, D>
        requires routes { HasRoutes (record { meaning = M.meaning self.handlers; settings = self.settings }) }
        requires fit { AllFit (M.meaning self.handlers) (stored opened.store.tables) }
        requires tables { opened.tables ≡ opened.store.tables }
        requires own { copies.own ≡ self.settings.endpoint }
        requires indexed { IsIndexed copies.own post.queues.entries copies.ready }
        requires free { AreFree copies.ready }
        requires state { copies.state ≡ post.queues }
        ensures base { result.base ≡ opened.store.base }
        ensures post { result.post ≡ post.cells }
        ensures handlers { result.handlers ≡ self.handlers }
        ensures course { result.course ≡ course self.settings self.turns (opening_of opened.store.tables post.queues self.moment self.workers) (D.count opened.store.base) (P.count post.cells) [] false }
    {
        let Terms {
            handlers,
            settings,
            moment,
            workers,
            turns,
        } = self;
        let BaseOpened { store, tables } = opened;
        let Copies { own, ready, state } = copies;
        handlers.is_meaning();
        let _sound_tables = store.commits();
        let _sound_post = post.next();
        let base_faults = store.base().faults();
        let post_faults = post.cells().faults();
        let opening = Opening {
            tables,
            post: state,
            moment,
            workers,
        };
        Hub {
            alloc,
            handlers,
            transport: Transport { post, ready, own },
            store,
            ledger: Ledger::new(alloc, settings, turns, opening, base_faults, post_faults),
            moment,
            phases: ByNumber::new(alloc),
            fails: ByNumber::new(alloc),
            back: ByNumber::new(alloc),
            discarded: Vec::new(alloc),
        }
    }

    /// The hub of a base that was opened, and of the queues.
    fn with_base<P: Cells, D: Cells>(
        self,
        alloc: Global,
        opened: BaseOpened<D>,
        post: P,
    ) -> Result<Hub<M, P, D>, StartRefusal<P, D>>
        requires routes { HasRoutes (record { meaning = M.meaning self.handlers; settings = self.settings }) }
        requires fit { AllFit (M.meaning self.handlers) (stored opened.store.tables) }
        requires tables { opened.tables ≡ opened.store.tables }
        ensures base { MatchResult result (λ h. h.base ≡ opened.store.base) (λ r. r.base ≡ opened.store.base) }
        ensures read { MatchResult result (λ h. IsRead P.honest P.now P.images P.firm P.count post h.post) (λ r. IsRead P.honest P.now P.images P.firm P.count post r.post) }
        ensures handlers { IfOk result (λ h. h.handlers ≡ self.handlers) }
        ensures course { IfOk result (λ h. h.course ≡ course self.settings self.turns (opening_of opened.store.tables h.course.opening.post self.moment self.workers) (D.count opened.store.base) (P.count h.post) [] false) }
        ensures cells { (m : CellMap) → IfOk result (λ h. Told P.honest P.now P.firm post h.post m → queue.HasCells m h.course.opening.post) }
        ensures refused { (m : CellMap) → IfErr result (λ r. Told P.honest P.now P.firm post r.post m → RefusesPost m r.fault) }
        ensures failed { IfErr result (λ r. r.fault ≡ PostFailed → Rose (P.count post) (P.count r.post)) }
        ensures kind { IfErr result (λ r. IsOfPost r.fault) }
    {
        match Post::start(alloc, post) {
            Ok(queues) => self.with_stores(alloc, opened, queues),
            Err(PostRefusal { fault, cells }) => {
                let closed = opened.store.close();
                Err(StartRefusal {
                    fault: of_post(fault),
                    post: cells,
                    base: closed.base,
                })
            }
        }
    }

    /// The hub of a base and of queues that were opened, where there is memory.
    fn with_stores<P: Cells, D: Cells>(
        self,
        alloc: Global,
        opened: BaseOpened<D>,
        post: Post<P>,
    ) -> Result<Hub<M, P, D>, StartRefusal<P, D>>
        requires routes { HasRoutes (record { meaning = M.meaning self.handlers; settings = self.settings }) }
        requires fit { AllFit (M.meaning self.handlers) (stored opened.store.tables) }
        requires tables { opened.tables ≡ opened.store.tables }
        ensures base { MatchResult result (λ h. h.base ≡ opened.store.base) (λ r. r.base ≡ opened.store.base) }
        ensures post { MatchResult result (λ h. h.post ≡ post.cells) (λ r. r.post ≡ post.cells) }
        ensures handlers { IfOk result (λ h. h.handlers ≡ self.handlers) }
        ensures course { IfOk result (λ h. h.course ≡ course self.settings self.turns (opening_of opened.store.tables post.queues self.moment self.workers) (D.count opened.store.base) (P.count post.cells) [] false) }
        ensures memory { IfErr result (λ r. r.fault ≡ StartFault.NoMemory) }
    {
        match copied(alloc, &self.settings.endpoint, &post) {
            Ok(copies) => Ok(self.assemble(alloc, opened, post, copies)),
            Err(NoMemory) => {
                let tables = opened.store.close();
                let queues = post.close();
                Err(StartRefusal {
                    fault: StartFault::NoMemory,
                    post: queues.cells,
                    base: tables.base,
                })
            }
        }
    }
}

impl<M: Handling + Drop, P: Cells, D: Cells> Hub<M, P, D> {
    /// The hub of two stores, at a moment and for so many workers, with at most `turns` Takes. The stores are handed
    /// back where it is refused. The base is read first, and both are read before any damage is said; `Damaged` names
    /// the least cell at fault, that of the base first. A saga that doesn't fit the script is at fault behind every
    /// other cell of the base.
    pub fn start(
        alloc: Global,
        handlers: M,
        settings: Settings,
        moment: Moment,
        workers: u32,
        turns: u64,
        post: P,
        base: D,
    ) -> Result<Hub<M, P, D>, StartRefusal<P, D>>
        requires { HasRoutes (record { meaning = M.meaning handlers; settings = settings }) }
        ensures base_read { MatchResult result (λ h. IsRead D.honest D.now D.images D.firm D.count base h.base) (λ r. IsRead D.honest D.now D.images D.firm D.count base r.base) }
        ensures post_read { MatchResult result (λ h. IsRead P.honest P.now P.images P.firm P.count post h.post) (λ r. IsRead P.honest P.now P.images P.firm P.count post r.post) }
        ensures handlers { IfOk result (λ h. h.handlers ≡ handlers) }
        // The history has no event yet, and the counts are those of now.
        ensures course { IfOk result (λ h. h.course ≡ course settings turns (opening_of h.course.opening.tables h.course.opening.post moment workers) (D.count h.base) (P.count h.post) [] false) }
        // It begins with what the cells of the stores stand for.
        ensures base_cells { (m : CellMap) → IfOk result (λ h. Told D.honest D.now D.firm base h.base m → table.HasCells m h.course.opening.tables) }
        ensures post_cells { (m : CellMap) → IfOk result (λ h. Told P.honest P.now P.firm post h.post m → queue.HasCells m h.course.opening.post) }
        ensures base_stands { (m : CellMap) → IfOk result (λ h. TellsOne D.now D.images D.firm base m → BaseStands D.honest D.now D.images D.firm h.base (past_of (M.meaning h.handlers) h.course)) }
        ensures post_stands { (m : CellMap) → IfOk result (λ h. TellsOne P.now P.images P.firm post m → PostStands P.honest P.now P.images P.firm h.post (past_of (M.meaning h.handlers) h.course)) }
        ensures base_refused { (m : CellMap) → IfErr result (λ r. Told D.honest D.now D.firm base r.base m → RefusesBase (M.meaning handlers) m r.fault) }
        ensures post_refused { (m : CellMap) → IfErr result (λ r. Told P.honest P.now P.firm post r.post m → RefusesPost m r.fault) }
        ensures base_failed { IfErr result (λ r. r.fault ≡ StoreFailed → Rose (D.count base) (D.count r.base)) }
        ensures post_failed { IfErr result (λ r. r.fault ≡ PostFailed → Rose (P.count post) (P.count r.post)) }
        ensures unread { IfErr result (λ r. r.fault ≡ StoreFailed → r.post ≡ post) }
    {
        match open_base(alloc, &handlers, base) {
            Ok(opened) => {
                let terms = Terms {
                    handlers,
                    settings,
                    moment,
                    workers,
                    turns,
                };
                terms.with_base(alloc, opened, post)
            }
            Err(refusal) => Err(refused(alloc, refusal, post)),
        }
    }
}
